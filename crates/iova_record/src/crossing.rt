//! That a recorded domain may go to another thread.
ghost use Rattle.std.specs.Thread.{IsSend};
ghost use Rattle.iova_record.specs.contracts.recorded_domain.RecordedDomain as recorded_domains;

use crate::recorded_domain::RecordedDomain;
use iova_core::crossing::domains_are_send;

fn is_send<T: Send>()
    ensures { IsSend T.row }
{}

/// A recorded domain may go to another thread.
pub fn recorded_domains_are_send()
    ensures { IsSend recorded_domains.the_row }
{
    domains_are_send();
    is_send::<RecordedDomain>();
}
