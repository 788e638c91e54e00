//! Clients close in order, and who is gone stays gone.
ghost use Rattle.iova_model.specs.Laws.{ClientsCloseInOrder, GoneClientsStayGone};

/// From the pair that marks a client on, nothing but its closing takes its holdings, and takes them
/// lowest first: at each moment what was queued and what is left are its old holdings, in their
/// order, and it is gone only where all were queued and its closing was answered `Empty`.
pub fn clients_close_in_order()
    ensures { ClientsCloseInOrder }
{}

/// A serial that was given and whose client is gone is no client's again, and each step that names
/// it is refused.
pub fn gone_clients_stay_gone()
    ensures { GoneClientsStayGone }
{}
