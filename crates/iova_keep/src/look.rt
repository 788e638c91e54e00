//! A domain as it is seen from beside its sessions.
use iova_model::step::ClientId;
use iova_range::range::Range;
use iova_range::refusal::Refusal;

/// A domain that is looked at beside its sessions.
pub trait Look {
    /// Appends the domain's report, as it is in one hold of the lock. Refused by `NoMemory`.
    fn look(&self, out: &mut Vec<u8>) -> Result<(), Refusal>;

    /// The first client that the worker opened behind this serial, with its ranges appended, in one
    /// hold of the lock. Refused by `NoMemory`.
    fn client(
        &self,
        worker: u64,
        behind: ClientId,
        ranges: &mut Vec<Range>,
    ) -> Result<Option<ClientId>, Refusal>;

    /// Whether steps are still recorded.
    fn is_recording(&self) -> bool;

    /// How many steps are recorded.
    fn steps(&self) -> u64;
}
