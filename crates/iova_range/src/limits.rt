//! Every limit of the repository, each with its unit and where it comes from. Code and definitions
//! cite these names.

/// The most workers of a domain, 1 at least.
pub const MAX_WORKERS: u64 = 16;

/// The most clients of a domain, closing ones too.
pub const MAX_CLIENTS: usize = 1024;

/// The most holdings of a client, in ranges.
pub const MAX_HOLDINGS: usize = 4096;

/// The most windows of a domain.
pub const MAX_WINDOWS: usize = 64;

/// The bytes of a page frame (`PAGE_SIZE` of Linux 5.15 on x86_64).
pub const FRAME_BYTES: u64 = 4_096;

/// The most bytes of a frame, where a domain's is another: a large page's.
pub const MAX_GRANULE: u64 = 2_097_152;

/// The most frames of one request.
pub const MAX_FRAMES: u64 = 1_048_576;

/// How many orders have magazines: sizes 1, 2, 4, 8, 16 and 32
/// (`IOVA_RANGE_CACHE_MAX_SIZE` of Linux 5.15 `include/linux/iova.h`).
pub const ORDERS: usize = 6;

/// The most frames of a range that has an order.
pub const MOST_CACHED: u64 = 1 << (ORDERS - 1);

/// How many slots a flush ring has (`IOVA_FQ_SIZE` of Linux 5.15 `include/linux/iova.h`).
pub const RING_SLOTS: usize = 256;

/// The most entries of a flush ring: one slot stays empty (Linux 5.15 `drivers/iommu/iova.c`:
/// `fq_full`).
pub const MAX_ENTRIES: usize = 255;

/// The most flushes in flight at a time.
pub const MAX_FLIGHTS: usize = 32;

/// The last serial of a client, and the last start count: after it a step is refused by `Worn`.
pub const MAX_SERIAL: u64 = 9_223_372_036_854_775_807;

/// The entries of a magazine in the first profile (`IOVA_MAG_SIZE` of Linux 5.15
/// `drivers/iommu/iova.c`).
pub const MAGAZINE: usize = 128;

/// The entries of a magazine in the second profile.
pub const SMALL_MAGAZINE: usize = 127;

/// The most magazines of an order in the depot (`MAX_GLOBAL_MAGS` of Linux 5.15
/// `include/linux/iova.h`).
pub const MAX_DEPOT: u64 = 32;

/// The last frame that bounds of the first profile may have: 2^36 - 1.
pub const TOP: u64 = 0xf_ffff_ffff;

/// The last frame that bounds of the second profile may have: 2^40 - 1.
pub const WIDE_TOP: u64 = 0xff_ffff_ffff;

/// The last frame below 4 GiB: a client that is `sac` is first sought a place up to it
/// (Linux 5.15 `drivers/iommu/dma-iommu.c`: `iommu_dma_alloc_iova`, `DMA_BIT_MASK(32)`).
pub const SAC_LIMIT: u64 = 1_048_575;

/// The most bytes of a line of the protocol or of a trace, its LF among them.
pub const MAX_LINE: usize = 128;

/// The most bytes of a line of a kernel's trace of which something is read, its LF among them.
pub const MAX_TRACE_LINE: usize = 1_024;

/// The last number that an IOMMU may give a domain, as a kernel's trace tells it: 16 bits (VT-d,
/// "Domain-ID").
pub const LAST_DOMAIN_ID: u64 = 65_535;

/// The most steps of one trace.
pub const MAX_STEPS: u64 = 1_000_000;

/// The most reads of one trace, or of one input of `ask`.
pub const MAX_READS: u64 = 134_217_728;

/// The most domain numbers: a daemon's domain is 0 to 7.
pub const MAX_DOMAINS: u64 = 8;

/// The most requests of one session where nobody says another bound.
pub const MAX_REQUESTS: u64 = 65_536;

/// The most reads of one session where nobody says another bound.
pub const MAX_SESSION_READS: u64 = 1_048_576;

/// The greatest bound of requests that a session may be given: 2^63 - 1.
pub const MAX_SESSION_REQUESTS: u64 = 9_223_372_036_854_775_807;

/// The longest time that a session may be allowed to be idle, in seconds: a day.
pub const MAX_IDLE: u64 = 86_400;

/// The most ranges that the answers to a session's `list`s have.
pub const MAX_LISTED: u64 = 1_048_576;

/// The greatest number of a refusal; the least is 1.
pub const MAX_REFUSAL: usize = 25;

/// The most requests that are run in one hold of the lock.
pub const MAX_RUN: usize = 16;

/// The most sessions that a daemon serves.
pub const MAX_SESSIONS: u64 = 65_536;

/// The parts of a worker's tally where each worker has one seat: with one part each, so many
/// threads of a worker can end flushes at a time.
pub const TALLY_PARTS: u64 = 256;

/// The parts of a seat's tally where a domain may have more seats than workers: one of its own, and
/// one that can be split off.
pub const SEAT_PARTS: u64 = 2;

/// The most posts of a daemon: each has a seat of its domain, and a thread.
pub const MAX_POSTS: u64 = 1_024;

/// How many descriptors a daemon wants beside those of its sessions and of its workers' sinks:
/// those that it begins with, its listeners, the flusher's sink, the record, the connections to the
/// control socket, and some to spare.
pub const DAEMON_DESCRIPTORS: u64 = 32;

/// The most steps that a domain may be asked to record.
pub const MAX_PAIRS: usize = 4_000_000;

/// How many steps a daemon records where nobody says another count: the first ones of its domain.
pub const RECORDED_STEPS: u64 = 100_000;

/// The most steps that a daemon records.
pub const MAX_RECORDED_STEPS: u64 = 1_000_000;

/// The time between two rounds of a daemon's flusher, in milliseconds: what is unmapped is free
/// again after about as long, and 100 rounds a second cost next to nothing where no ring has an
/// entry (`IOVA_FQ_TIMEOUT` of Linux 5.15 `include/linux/iova.h`).
pub const FLUSH_PAUSE: u64 = 10;

/// The longest time between two rounds of a daemon's flusher, in milliseconds: after each flush
/// that failed it is twice as long as before.
pub const MAX_FLUSH_PAUSE: u64 = 1_000;

/// The time after an accept that failed, in milliseconds. It doubles with each failure after
/// another.
pub const ACCEPT_PAUSE: u64 = 10;

/// The longest time after an accept that failed, in milliseconds.
pub const MAX_ACCEPT_PAUSE: u64 = 1_000;

/// The greatest time that a daemon's sink may be given to answer, in seconds.
pub const MAX_SINK_TIMEOUT: u64 = 3_600;

/// The time that a daemon's sink is given to answer where none is asked for, in seconds.
pub const SINK_TIMEOUT: u64 = 10;

/// The longest time that a daemon may wait for its peer at its start, in seconds.
pub const MAX_PEER_WAIT: u64 = 3_600;

/// The time between two tries to connect to a peer at a daemon's start, in milliseconds.
pub const CONNECT_LOOK: u64 = 20;

/// The time for which no connection is made to a peer after one that failed, in milliseconds. It
/// doubles with each failure after another.
pub const CONNECT_PAUSE: u64 = 10;

/// The longest time for which no connection is made to a peer after one that failed, in
/// milliseconds.
pub const MAX_CONNECT_PAUSE: u64 = 1_000;

/// The time between two rounds in which a daemon's clients that wait are tried again, in
/// milliseconds: by a post that waits for a session, or serves one that began while they waited.
pub const RETRY_PAUSE: u64 = 1_000;

/// The longest time until a daemon sees that it is asked to stop, in milliseconds: what waits for a
/// peer waits no longer at a time.
pub const STOP_PAUSE: u64 = 250;

/// The most connections that are hung up on when a listener is closed: as many as the system lets
/// wait there (`net.core.somaxconn` of Linux 5.15).
pub const MAX_WAITING: u64 = 4_096;

/// The most connections that a control socket serves at a time; another one waits.
pub const MAX_CONTROLS: usize = 8;

/// The time between two looks at a control socket's connections, in milliseconds.
pub const CONTROL_PAUSE: u64 = 20;

/// How many looks a control socket's connection that has asked nothing yet may be silent where
/// another one waits: 2 seconds.
pub const MAX_CONTROL_SILENCE: u64 = 100;

/// How often a control socket's connection is read at one look.
pub const CONTROL_READS: u64 = 16;

/// The time that a daemon's control socket is given to take a connection, and to answer anything
/// but a stop, where nobody says another, in seconds.
pub const CONTROL_TIMEOUT: u64 = 10;

/// The greatest time that whoever asks a daemon may give it to answer, in seconds: a day.
pub const MAX_ANSWER_TIMEOUT: u64 = 86_400;

/// The most seconds between two looks of whoever watches a daemon: an hour.
pub const MAX_WATCH_PAUSE: u64 = 3_600;

/// How often a folder's lock is tried, with a pause after each time: a second in all.
pub const FOLDER_LOOKS: u64 = 100;

/// The pause after a folder's lock was tried, in milliseconds.
pub const FOLDER_PAUSE: u64 = 10;

/// The workers of a daemon where nobody says how many.
pub const DEFAULT_WORKERS: u64 = 4;

/// The clients that a daemon serves at a time where nobody says how many.
pub const DEFAULT_CLIENTS: u64 = 64;

/// The most bytes of the name that a daemon is given.
pub const MAX_DAEMON_NAME: usize = 64;

/// The number of a daemon's domain where nobody says another.
pub const DEFAULT_DOMAIN: u64 = 0;

/// The first frame of a daemon's domain where nobody says another: frame 0 is never handed out.
pub const DEFAULT_START: u64 = 1;

/// The last frame of a daemon's domain where nobody says another: the last one below the interrupt
/// window of x86, which begins at the byte 0xfee0_0000 (Intel's and AMD's manuals).
pub const DEFAULT_LAST: u64 = 1_043_967;

/// The least time between two notices of one kind, in milliseconds.
pub const NOTICE_PAUSE: u64 = 1_000;
