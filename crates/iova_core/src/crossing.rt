//! That a domain may go to another thread. One `search` doesn't get through all of it, so each law
//! here is of one layer, and the next one starts from it.
ghost use Rattle.std.specs.Thread.{IsSend};
ghost use Rattle.iova_tree.specs.contracts.tree.Tree as trees;
ghost use Rattle.iova_clients.specs.contracts.clients.Clients as clients;
ghost use Rattle.iova_depot.specs.contracts.caches.Caches as caches;
ghost use Rattle.iova_flush.specs.contracts.ring.Ring as rings;
ghost use Rattle.iova_flush.specs.contracts.flights.Flights as flights;
ghost use Rattle.iova_core.specs.contracts.domain.Domain as domains;

use iova_clients::clients::Clients;
use iova_depot::caches::Caches;
use iova_flush::flights::Flights;
use iova_flush::ring::Ring;
use iova_tree::tree::Tree;

fn is_send<T: Send>()
    ensures { IsSend T.row }
{}

fn parts_are_send()
    ensures tree { IsSend trees.the_row }
    ensures clients { IsSend clients.the_row }
    ensures caches { IsSend caches.the_row }
    ensures rings { IsSend rings.the_row }
    ensures flights { IsSend flights.the_row }
{
    is_send::<Tree>();
    is_send::<Clients>();
    is_send::<Caches>();
    is_send::<Ring>();
    is_send::<Flights>();
}

/// A domain may go to another thread.
pub fn domains_are_send()
    ensures { IsSend domains.the_row }
{
    parts_are_send();
}
