//! What a line of `reserved_regions` says.

/// What a region is, in the words of Linux 5.15 `drivers/iommu/iommu.c`
/// (`iommu_group_resv_type_string`).
#[derive(Clone, Copy, Debug, PartialEq, Eq)]
pub enum RegionKind {
    /// `direct`: firmware needs it mapped to itself, always.
    Direct,
    /// `direct-relaxable`: firmware needs it mapped to itself, until a driver takes the device.
    DirectRelaxable,
    /// `msi`: interrupts are written there.
    Msi,
    /// `reserved`: it may not be mapped.
    Reserved,
}

/// Addresses in a row, in bytes.
#[derive(Clone, Copy, Debug, PartialEq, Eq)]
pub struct Region {
    /// The address of the first byte.
    pub first: u64,
    /// The address of the last byte, at least the first.
    pub last: u64,
    /// What it is.
    pub kind: RegionKind,
}

/// Which regions count.
#[derive(Clone, Copy, Debug, PartialEq, Eq)]
pub enum Counted {
    /// All of them: nothing may be handed out there.
    All,
    /// All but `direct` and `direct-relaxable` ones. In a trace of a kernel's own mappings those
    /// are mapped by the kernel itself.
    NotDirect,
}
