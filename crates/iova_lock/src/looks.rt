//! A domain under a lock, looked at.
use crate::shared::Shared;
use iova_keep::look::Look;
use iova_keep::names::Names;
use iova_model::step::ClientId;
use iova_range::range::Range;
use iova_range::refusal::Refusal;
use std::sync::Wait;

impl<Q: Wait, B: Names> Look for &Shared<Q, B> {
    fn look(&self, out: &mut Vec<u8>) -> Result<(), Refusal> {
        self.report(out)
    }

    fn client(
        &self,
        worker: u64,
        behind: ClientId,
        ranges: &mut Vec<Range>,
    ) -> Result<Option<ClientId>, Refusal> {
        self.newer(worker, behind, ranges)
    }

    fn is_recording(&self) -> bool {
        self.recording()
    }

    fn steps(&self) -> u64 {
        Shared::steps(self)
    }
}
