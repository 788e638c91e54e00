//! A daemon: the sessions of a plan, served on a socket, and the report of what they leave.
ghost use Rattle.std.specs.Prelude.{◌≡◌, ◌<◌, ◌≤◌, ◌+◌, ◌*◌, ◌||◌, ℕ, true, List, [], None, Some, Err, IfErr, IfOk, IfSome, is_some, map, length, slice_get, vec_len, vec_capacity};
ghost use Rattle.iova_range.specs.declared.limits.TheConstants.{SEAT_PARTS};
ghost use Rattle.iova_keep.specs.Views.{AreBlanksOf, WhereKnown, seats_in_turn};
ghost use Rattle.iova_lock.specs.Books.{tally_parts};
ghost use Rattle.iova_command.specs.declared.plan.Plan.{Plan};
ghost use Rattle.iova_files.specs.Sinks.{IsOpened};
ghost use Rattle.iova_regions.specs.Regions.{IsReadWell};
ghost use Rattle.iova_planned.specs.PlannedDomains.{AreNewSeats, seat_count};
ghost use Rattle.iovad.specs.Plans.{AreFactsOf, IsAboveProfile, IsBoundsOf, IsFaultOfServing, is_peer, planned_limits, planned_turns};
ghost use Rattle.iovad.specs.Ends.{EndsAll, EndsCounted, EndsEach, IsAnswered, last_calls, workers_of};

use iova_command::plan::Plan;
use iova_command::plan_words::PlanWords;
use iova_command::said::Said;
use iova_command::sink_path::SinkPath;
use iova_command::words::VERSION;
use iova_control::control::{Control, Facts};
use iova_core::domain::Domain;
use iova_daemon::{ServedBy, Service, Serving, serve_sessions};
use iova_files::descriptors::sessions_within;
use iova_files::listening::{Access, is_free, listen};
use iova_files::notices::{CountedConsole, Notices};
use iova_files::record_file::{RecordFile, is_in_use};
use iova_files::sharing::{share_all, sinks_in_turn};
use iova_files::sinks::{DaemonSink, SinkPlace, open_sink};
use iova_files::standard::path_of_input;
use iova_keep::keep::Keep;
use iova_keep::ledgers::Blanks;
use iova_keep::names::Names;
use iova_keep::seat::Seat;
use iova_links::accept::Accept;
use iova_links::control_task::WithControl;
use iova_links::dial::{Dial, UnixNet};
use iova_links::locked_sink::{LockedSink, SharedSink};
use iova_links::made_file::MadeFile;
use iova_links::pause::Ticks;
use iova_links::served_link::{ServedLink, TimeOuts};
use iova_links::signals::Signals;
use iova_links::socket::SocketAccept;
use iova_lock::shared::Shared;
use iova_planned::domain::new_domain;
use iova_planned::seats::clients_of;
use iova_range::bounds::Bounds;
use iova_range::limits::{FRAME_BYTES, MAX_SESSION_REQUESTS, STOP_PAUSE};
use iova_range::profile::Profile;
use iova_range::refusal::Refusal;
use iova_regions::region::Counted;
use iova_regions::windows::Windows;
use iova_session::end_post::end_post;
use iova_session::post::{Post, seats_of};
use iova_session::session_limits::SessionLimits;
use iova_sink::sink::Sink;
use iova_tools::fault::{Fault, Left};
use iova_tools::outcome::print_domain;
use iova_tools::regions::add_regions;
use log::{LevelFilter, Log, Logged, info, warn};
use std::fs::File;
use std::io;
use std::net::Net;
use std::rt::{Clock, Files, Runtime};
use std::sync::Wait;
use std::thread::{Threads, available_parallelism};
use std::time::Duration;

/// What the daemon wants of the system.
pub trait Host: Runtime
    + AllocGlobal
    + Net
    + Dial
    + Threads
    + Wait
    + Sync
    + Files<File = File>
    + Log {}

impl<R> Host for R
where
    R: Runtime + AllocGlobal + Net + Dial + Threads + Wait + Sync + Files<File = File> + Log,
{}

/// What each part of a daemon's run uses.
#[derive(Drop)]
struct Running<'a, 'p, R> {
    rt: &'a R,
    plan: &'a Plan<'p>,
    notices: &'a Notices<'a, R>,
    signals: &'a Signals,
    control: &'a DaemonControl<'a, R>,
    net: &'a UnixNet<'a, R>,
    /// How many sessions are served at a time.
    clients: u64,
}

/// Serves the plan's sessions on its socket, writes the record of the domain's steps where one is
/// wanted, and then prints a line with the domain's number and the domain's report. The socket's
/// file is removed once the sessions are over, also where no thread could be started. Clients that
/// still wait then are tried once more. A record is opened before the socket is bound, and emptied
/// and begun behind that. A start that is refused leaves no file that it has made, and what stood
/// in others. The cause of `CannotOpenSink`, `SocketFault` and `CannotWrite` is printed on the
/// line before.
///
/// Faults come in this order: `StartAboveLast`; `LastAboveProfile`; `CannotRead`, `RegionsRefused`
/// or `NoMemory` for the reserved regions; `NoMemory` for the domain; `NoMemory` or
/// `CannotOpenSink` for the sinks of a file; `SocketFault` where anything but a socket that was
/// left stands at the socket's path; `NoMemory` or `CannotOpenSink` for the connections to a peer;
/// `CannotWrite` for the record, which may be none of the run's other files; `SocketFault` where
/// the control socket, and then the socket, can't be bound; `CannotWrite` or `NoMemory` for the
/// record's beginning; `SocketFault` where a thread can't be started; `NoMemory` or `CannotWrite`
/// for the record at its end; `NoMemory` for the report; `CannotWrite`; `Left` where the daemon was
/// stopped, and something is left at clients or in rings.
pub fn serve<'a, R, B>(
    rt: &R,
    plan: &Plan<'a>,
    said: &Said<'a>,
    blanks: Blanks,
) -> Result<(), Fault<'a>>
where
    R: Host,
    B: Names + Send + Sync,
    requires blanks { AreBlanksOf blanks B.ledgers (seat_count plan.now) SEAT_PARTS
        plan.now.workers }
    ensures order { plan.now.last < plan.now.start → result ≡ Err Fault.StartAboveLast }
    ensures profile { plan.now.start ≤ plan.now.last → IsAboveProfile plan.now
        → result ≡ Err Fault.LastAboveProfile }
    ensures faults { IfErr result (IsFaultOfServing plan.now) }
{
    let bounds = bounds_of(plan)?;
    let windows = windows_of(rt, plan, bounds)?;
    let signals = new_signals(rt);
    let warns = plan.log_level != LevelFilter::Error;
    let name = said.text("name").unwrap_or("");
    let console = CountedConsole::new(rt, &signals, warns, name);
    // warnings are counted at any level, since those of flushes that failed are among them
    let notices = Logged::new(rt, plan.log_level.max(LevelFilter::Warn), console);
    tell_start(&notices, said, &windows);
    let Some((shared, posts)) = new_domain::<R, B>(rt, plan, bounds, &windows, blanks) else {
        return Err(Fault::NoMemory);
    };
    let net = UnixNet::new(rt);
    let clients = sessions_within(rt, &notices, clients_of(plan), plan.workers);
    // its connections last until all is done: so whoever asked for a stop learns of the end
    let control = Control::new(rt, &notices, &signals, facts_of(plan, name, clients));
    let run = Running {
        rt,
        plan,
        notices: &notices,
        signals: &signals,
        control: &control,
        net: &net,
        clients,
    };
    let mut files = StartFiles::new(&run);
    let left = match open_all(&run, &mut files, &shared) {
        Ok((sinks, accept)) => serve_opened(&run, &mut files, shared, posts, &sinks, &accept),
        Err(why) => Err(why),
    };
    match left {
        Ok((domain, recorded)) => finish(&run, domain, recorded),
        Err(why) => {
            files.remove(&run);
            Err(why.fault())
        }
    }
}

/// Writes a notice of what is served, in the words of the command line.
fn tell_start<R: Host>(notices: &Notices<'_, R>, said: &Said<'_>, windows: &Windows) {
    let version = VERSION.lines().next().unwrap_or(VERSION);
    let words = PlanWords::new(said, windows);
    info!(notices; target: "", "iovad {version} starts: {words}");
}

/// Signals of a daemon that starts now. The system may not say how many processors its threads
/// have, and which time it is: 0 then.
fn new_signals<R: Host>(rt: &R) -> Signals {
    let processors = available_parallelism(rt).map_or(0, |count| count.get() as u64);
    let started = rt.since_1970().map_or(0, |time| time.as_secs());
    Signals::new(processors, started)
}

/// What keeps a daemon from its end once it has a domain: a plain value, which nothing drops.
#[derive(Clone, Copy)]
enum StartFault {
    CannotOpenSink,
    SocketFault,
    NoMemory,
    CannotWrite,
}

impl StartFault {
    /// The fault of the run.
    fn fault(self) -> Fault<'static>
        ensures { (plan : Plan) → IsFaultOfServing plan result }
    {
        match self {
            StartFault::CannotOpenSink => Fault::CannotOpenSink,
            StartFault::SocketFault => Fault::SocketFault,
            StartFault::NoMemory => Fault::NoMemory,
            StartFault::CannotWrite => Fault::CannotWrite,
        }
    }
}

/// What is so of the plan's daemon of this name, which serves so many sessions at a time.
fn facts_of(plan: &Plan<'_>, name: &str, clients: u64) -> Facts
    ensures { AreFactsOf plan.now name.now clients result }
{
    let mut facts = Facts::new(VERSION, plan.workers);
    facts.clients = clients;
    facts.granule = plan.granule.unwrap_or(FRAME_BYTES);
    facts.has_peer = has_peer(plan);
    facts.is_recorded = plan.record.is_some();
    facts.set_name(name);
    facts
}

/// Whether a peer answers.
fn has_peer(plan: &Plan<'_>) -> bool
    ensures { result ≡ is_peer plan.now.sink }
{
    matches!(plan.sink, SinkPath::Peer(_))
}

/// The files that a daemon has made, which a start that is refused removes, and the record's file.
#[derive(Drop)]
struct StartFiles<'p> {
    /// The path of the file that takes records, where nothing stood there.
    new_sink: Option<&'p str>,
    record: Option<RecordFile<'p>>,
    control: Option<MadeFile<'p>>,
}

impl<'p> StartFiles<'p> {
    /// None is made yet.
    fn new<R: Host>(run: &Running<'_, 'p, R>) -> StartFiles<'p> {
        let new_sink = match run.plan.sink {
            SinkPath::File(path) if MadeFile::at(run.rt, path).is_none() => Some(path),
            _ => None,
        };
        StartFiles {
            new_sink,
            record: None,
            control: None,
        }
    }

    /// Removes all that were made.
    fn remove<R: Host>(&self, run: &Running<'_, 'p, R>) {
        self.remove_control(run);
        if let Some(record) = &self.record {
            record.undo(run.rt);
        }
        if let Some(path) = self.new_sink
            && let Some(made) = MadeFile::at(run.rt, path)
        {
            made.remove(run.rt);
        }
    }

    /// Removes the control socket's file.
    fn remove_control<R: Host>(&self, run: &Running<'_, 'p, R>) {
        if let Some(file) = &self.control {
            file.remove(run.rt);
        }
    }

    /// Writes what was recorded to its file, where there is one, in place of what stands there.
    /// Refused by `NoMemory` and by `CannotWrite`.
    fn write_record<R: Host, Q: Wait, B: Names>(
        &mut self,
        run: &Running<'_, 'p, R>,
        shared: &Shared<Q, B>,
    ) -> Result<(), StartFault> {
        let Some(file) = &mut self.record else {
            return Ok(());
        };
        let mut text = Vec::new(run.rt.alloc());
        match shared.transcript(&mut text) {
            Ok(_steps) if file.write(run.notices, &text) => Ok(()),
            Ok(_steps) => Err(StartFault::CannotWrite),
            Err(_) => Err(StartFault::NoMemory),
        }
    }
}

/// A sink of a daemon, its service's socket, and its control socket.
type OpenedSink<'a, R> = DaemonSink<'a, UnixNet<'a, R>>;

type DaemonAccept<'a, R> = SocketAccept<'a, R, Notices<'a, R>>;

type DaemonControl<'a, R> = Control<'a, R, Notices<'a, R>>;

/// Opens the plan's sinks, the record's file and its sockets, and begins the record. No session is
/// accepted yet.
fn open_all<'a, 'p, R: Host, B: Names>(
    run: &Running<'a, 'p, R>,
    files: &mut StartFiles<'p>,
    shared: &Shared<&'a R, B>,
) -> Result<(Vec<SharedSink<OpenedSink<'a, R>>>, DaemonAccept<'a, R>), StartFault>
    ensures { IfOk result (λ o. 2 ≤ vec_len o.0) }
{
    let sinks = open_sinks_first(run)?;
    files.record = open_record(run)?;
    files.control = listen_for_control(run)?;
    let accept = listen_for_sessions(run)?;
    if let Err(why) = files.write_record(run, shared) {
        accept.close();
        return Err(why);
    }
    Ok((sinks, accept))
}

/// Serves the plan's sessions, and gives the domain that is left, and whether its record is written.
fn serve_opened<'a, 'p, 's, R, B, D>(
    run: &'s Running<'a, 'p, R>,
    files: &mut StartFiles<'p>,
    shared: Shared<&'a R, B>,
    posts: Vec<Post<B>>,
    sinks: &'s [SharedSink<D>],
    accept: &DaemonAccept<'a, R>,
) -> Result<(Domain, Result<(), StartFault>), StartFault>
where
    R: Host,
    B: Names + Send + Sync,
    D: Sink + Send + Drop,
    requires posts { AreNewSeats shared (map (λ p. p.seat) posts.items) }
    requires parts { B.ledgers.good.parts ≡ SEAT_PARTS * shared.seats }
    requires sinks { 2 ≤ length sinks.now }
{
    let ended = serve_and_end(run, files, shared, posts, sinks, accept)?;
    Ok((ended.domain, ended.recorded))
}

/// What a service leaves: its domain, whether its record is written, and the sinks that served:
/// those of the posts, the flusher's, and that of the last round, where there was one.
#[derive(Drop)]
struct Ended<D, E> {
    domain: Domain,
    recorded: Result<(), StartFault>,
    sinks: Vec<D>,
    sink: D,
    last: Option<E>,
}

/// Serves the plan's sessions, each post with a sink of its worker's, made here, and the flusher
/// with one of the last; closes the sockets, and ends the service, once all seats and tallies have
/// come back. So all flushes that the domain counts as ended well, from its beginning to its end,
/// are within the good calls that these sinks were given.
fn serve_and_end<'a, 'p, 's, R, B, D>(
    run: &'s Running<'a, 'p, R>,
    files: &mut StartFiles<'p>,
    shared: Shared<&'a R, B>,
    posts: Vec<Post<B>>,
    sinks: &'s [SharedSink<D>],
    accept: &DaemonAccept<'a, R>,
) -> Result<Ended<LockedSink<'s, R, D>, OpenedSink<'a, R>>, StartFault>
where
    R: Host,
    B: Names + Send + Sync,
    D: Sink + Send + Drop,
    requires posts { AreNewSeats shared (map (λ p. p.seat) posts.items) }
    requires parts { B.ledgers.good.parts ≡ SEAT_PARTS * shared.seats }
    requires sinks { 2 ≤ length sinks.now }
    ensures { IfOk result (λ e. IsAnswered e.domain
        (map ⟦<LockedSink<'s, R, D> as Sink>⟧.calls e.sinks.items)
        (⟦<LockedSink<'s, R, D> as Sink>⟧.calls e.sink)
        (last_calls ⟦<OpenedSink<'a, R> as Sink>⟧.calls e.last)) }
{
    let Some(sinks) = sinks_in_turn(run.rt, run.rt.alloc(), sinks, posts.len()) else {
        accept.close();
        return Err(StartFault::NoMemory);
    };
    // so the end needs no memory for the seats
    let Ok(room) = Vec::with_capacity(run.rt.alloc(), posts.len()) else {
        accept.close();
        return Err(StartFault::NoMemory);
    };
    let beside = WithControl::new(accept, run.control);
    let (service, pause) = (service_of(run), Ticks::new(run.rt));
    let served = serve_sessions::<_, _, _, _, ServedLink<'_, R>, _, _, _>(
        &service, &shared, posts, sinks, &beside, pause,
    );
    // removes the socket's file, where the last session's accept has not
    accept.close();
    files.remove_control(run);
    match served {
        Ok(served) => Ok(end_service(run, files, shared, served, room)),
        Err(Refusal::NoMemory) => Err(StartFault::NoMemory),
        Err(_) => Err(StartFault::SocketFault),
    }
}

/// Ends a service: tries the clients that wait once more, at a stop flushes what is in a ring,
/// writes the record, and takes the domain out of its lock.
fn end_service<'a, 'p, R, B, D>(
    run: &Running<'a, 'p, R>,
    files: &mut StartFiles<'p>,
    shared: Shared<&'a R, B>,
    served: ServedBy<B, D>,
    room: Vec<Seat<B>>,
) -> Ended<D, OpenedSink<'a, R>>
where
    R: Host,
    B: Names + Send + Sync,
    D: Sink + Send + Drop,
    requires workers { workers_of (map (λ p. p.seat) served.posts.items)
        ≡ workers_of (seats_in_turn SEAT_PARTS shared.workers shared.seats) }
    requires enough { shared.workers ≤ shared.seats }
    requires parts { tally_parts (map (λ p. p.seat) served.posts.items) + served.tally.parts
        ≡ B.ledgers.good.parts }
    requires empty { room.items ≡ [] }
    requires room { vec_len served.posts ≤ vec_capacity room }
    ensures ended { EndsCounted (map (λ p. p.seat) served.posts.items)
        served.tally (last_calls ⟦<OpenedSink<'a, R> as Sink>⟧.calls result.last)
        result.domain }
    ensures sinks { (result.sinks ≡ served.sinks) × (result.sink ≡ served.sink) }
{
    info!(run.notices; target: "", "all sessions have ended");
    let ServedBy {
        mut posts,
        sinks,
        sink,
        tally,
    } = served;
    let mut last = last_wanted(run, &shared, &posts);
    end_posts(&shared, &mut posts, &mut last, run.signals.is_stopping());
    run.control.look_at_record(shared.recording());
    let recorded = files.write_record(run, &shared);
    run.notices.flush();
    Ended {
        domain: shared.into_counted(seats_of(posts, room), tally),
        recorded,
        sinks,
        sink,
        last,
    }
}

/// Listens for the service's sessions. Refused by `SocketFault`.
fn listen_for_sessions<'a, R: Host>(
    run: &Running<'a, '_, R>,
) -> Result<DaemonAccept<'a, R>, StartFault> {
    let (rt, plan) = (run.rt, run.plan);
    let listening = listen(rt, run.notices, plan.socket, Access::Umask);
    let (listener, file) = listening.ok_or(StartFault::SocketFault)?.into_parts();
    let time_outs = time_outs_of(plan);
    Ok(SocketAccept::new(rt, run.notices, file, listener, run.signals, time_outs))
}

/// Listens on the control socket, where one is wanted, which only the same user may connect to:
/// gives its file. Refused by `SocketFault`.
fn listen_for_control<'p, R: Host>(
    run: &Running<'_, 'p, R>,
) -> Result<Option<MadeFile<'p>>, StartFault> {
    let Some(path) = run.plan.control else {
        return Ok(None);
    };
    let listening = listen(run.rt, run.notices, path, Access::Private);
    let (listener, file) = listening.ok_or(StartFault::SocketFault)?.into_parts();
    run.control.listen(run.rt.alloc(), listener);
    Ok(Some(file))
}

/// The time that a session waits for its client: in short turns, if the daemon may be asked to stop
/// or a session's idle time is limited.
fn time_outs_of(plan: &Plan<'_>) -> TimeOuts
    ensures turns { result.turns ≡ planned_turns plan.now.idle }
    ensures turn { is_some result.turn ≡ (is_some plan.now.control || is_some plan.now.idle) }
{
    let turns = match plan.idle {
        Some(seconds) => seconds.saturating_mul(1000 / STOP_PAUSE),
        None => u64::MAX,
    };
    let turn = if plan.control.is_some() || plan.idle.is_some() {
        Some(Duration::from_millis(STOP_PAUSE))
    } else {
        None
    };
    TimeOuts { turn, turns }
}

/// What the plan's service is lent, and what it serves.
fn service_of<'a, R: Host>(run: &Running<'a, '_, R>) -> Service<'a, R, Notices<'a, R>>
    ensures sessions { result.serving.sessions ≡ run.now.plan.now.sessions }
    ensures limits { result.serving.limits ≡ planned_limits run.now.plan.now.session_requests }
    ensures clients { result.serving.clients ≡ run.now.clients }
{
    let limits = match run.plan.session_requests {
        Some(0) => SessionLimits::of_requests(MAX_SESSION_REQUESTS),
        Some(requests) => SessionLimits::of_requests(requests),
        None => SessionLimits::usual(),
    };
    Service {
        rt: run.rt,
        alloc: run.rt.alloc(),
        notices: run.notices,
        serving: Serving {
            sessions: run.plan.sessions,
            limits,
            clients: run.clients,
        },
    }
}

/// A sink for each worker, and one for the flusher, where nothing stands in their way. A peer is
/// not disturbed where the socket's place is taken; else that place is looked at behind the sinks.
/// Refused by `SocketFault`, `NoMemory` and `CannotOpenSink`.
fn open_sinks_first<'a, R: Host>(
    run: &Running<'a, '_, R>,
) -> Result<Vec<SharedSink<OpenedSink<'a, R>>>, StartFault>
    ensures { IfOk result (λ v. 2 ≤ vec_len v) }
{
    let has_peer = has_peer(run.plan);
    if has_peer && !is_free(run.rt, run.notices, run.plan.socket) {
        return Err(StartFault::SocketFault);
    }
    if let (SinkPath::File(path), Some(name)) = (run.plan.sink, run.plan.regions)
        && is_in_use(run.rt, run.notices, path, path_of_input(name))
    {
        return Err(StartFault::CannotOpenSink);
    }
    let sinks = open_sinks(run, run.plan.workers as usize + 1)?;
    if !has_peer {
        warn!(run.notices; target: "", "records only: no device answers");
        if !is_free(run.rt, run.notices, run.plan.socket) {
            return Err(StartFault::SocketFault);
        }
    }
    share_all(run.rt.alloc(), sinks).ok_or(StartFault::NoMemory)
}

/// So many sinks. The first one has sent its peer a `reset` of the domain. Refused by
/// `NoMemory` and by `CannotOpenSink`.
#[tactic(auto, using(crate::proofs::Answered::first_opened))]
fn open_sinks<'a, R: Host>(
    run: &Running<'a, '_, R>,
    count: usize,
) -> Result<Vec<OpenedSink<'a, R>>, StartFault>
    ensures count { IfOk result (λ v. vec_len v ≡ count) }
    ensures reset { IfOk result (λ v. IfSome (slice_get v.items 0)
        (IsOpened run.now.plan.now.sink (Some run.now.plan.now.domain))) }
{
    let Ok(mut sinks) = Vec::with_capacity(run.rt.alloc(), count) else {
        return Err(StartFault::NoMemory);
    };
    for at in 0..count {
        let reset = if at == 0 { Some(run.plan.domain) } else { None };
        let sink = open_one(run, SinkPlace::of(run.plan), reset).ok_or(StartFault::CannotOpenSink)?;
        let Ok(()) = sinks.push(sink) else {
            unreachable!();
        };
    }
    Ok(sinks)
}

/// A sink there. None where it can't be opened.
fn open_one<'a, R: Host>(
    run: &Running<'a, '_, R>,
    place: SinkPlace<'a>,
    reset: Option<u64>,
) -> Option<OpenedSink<'a, R>>
    ensures { IfSome result (IsOpened place.entry.path reset) }
{
    let stop_deadline = run.signals.stop_deadline();
    open_sink(run.rt, run.notices, run.net, stop_deadline, place, reset)
}

/// The record's file, where one is wanted. Refused by `CannotWrite`, also where it is the sink's or
/// the regions' file.
fn open_record<'p, R: Host>(
    run: &Running<'_, 'p, R>,
) -> Result<Option<RecordFile<'p>>, StartFault> {
    let Some(path) = run.plan.record else {
        return Ok(None);
    };
    let sink = run.plan.sink.path();
    // where there are no regions, no other file is read
    let regions = run.plan.regions.map_or(sink, path_of_input);
    let file = RecordFile::open(run.rt, run.notices, path, &[sink, regions]);
    Ok(Some(file.ok_or(StartFault::CannotWrite)?))
}

/// Prints the domain, where the record was written, and says what is left of it at clients and in
/// rings, where the daemon was stopped and anything is.
fn finish<R: Host>(
    run: &Running<'_, '_, R>,
    domain: Domain,
    recorded: Result<(), StartFault>,
) -> Result<(), Fault<'static>>
    ensures { IfErr result (IsFaultOfServing run.now.plan.now) }
{
    if let Err(why) = recorded {
        return Err(why.fault());
    }
    print_domain(
        run.rt.alloc(),
        run.plan.domain,
        &domain,
        &mut io::writer(run.rt),
    )?;
    let (frames, clients) = (domain.counts().ring, domain.clients() as u64);
    if !run.signals.is_stopping() || (frames == 0 && clients == 0) {
        return Ok(());
    }
    Err(Fault::Left(Left {
        clients,
        ranges: domain.totals().count,
        frames,
        has_peer: has_peer(run.plan),
    }))
}

/// The bounds of the plan's domain: in the second profile where the plan has a depot, else in the
/// first. Refused by `StartAboveLast`, and by `LastAboveProfile`.
fn bounds_of(plan: &Plan<'_>) -> Result<Bounds, Fault<'static>>
    ensures ok { IfOk result (λ b. IsBoundsOf plan.now b) }
    ensures order { plan.now.last < plan.now.start → result ≡ Err Fault.StartAboveLast }
    ensures profile { plan.now.start ≤ plan.now.last → IsAboveProfile plan.now
        → result ≡ Err Fault.LastAboveProfile }
    ensures faults { IfErr result (IsFaultOfServing plan.now) }
{
    if plan.start > plan.last {
        return Err(Fault::StartAboveLast);
    }
    let profile = match plan.depot {
        Some(depot) => match Profile::two(depot) {
            Ok(profile) => profile,
            Err(_) => unreachable!(),
        },
        None => Profile::one(),
    };
    match Bounds::new_in(profile, plan.start, plan.last) {
        Ok(bounds) => Ok(bounds),
        Err(_) => Err(Fault::LastAboveProfile),
    }
}

/// The windows of the plan: those that are named, and those of its reserved regions, of whatever
/// kind. Refused as these are.
#[tactic(auto, using(crate::proofs::Reading::of_regions))]
fn windows_of<'a, R: Host>(rt: &R, plan: &Plan<'a>, bounds: Bounds) -> Result<Windows, Fault<'a>>
    ensures named { plan.now.regions ≡ None → IfOk result (λ ws. ws ≡ plan.now.windows) }
    ensures read { IfSome plan.now.regions (λ name. IfOk result (λ ws. (text : List ℕ)
        × IsReadWell Counted.All bounds text plan.now.windows ws)) }
    ensures faults { IfErr result (IsFaultOfServing plan.now) }
{
    let mut windows = plan.windows.copied();
    if let Some(path) = plan.regions {
        add_regions(rt, path, Counted::All, bounds, &mut windows)?;
    }
    Ok(windows)
}

/// A sink for the last round, where one is wanted and can be opened: where clients wait, and at a
/// stop where anything is in a ring.
fn last_wanted<'a, R: Host, B: Names>(
    run: &Running<'a, '_, R>,
    shared: &Shared<&'a R, B>,
    posts: &[Post<B>],
) -> Option<OpenedSink<'a, R>> {
    let is_queued = run.signals.is_stopping() && shared.stat().ring > 0;
    if !is_queued && posts.iter().all(|post| post.waiting.is_empty()) {
        return None;
    }
    open_one(run, SinkPlace::of(run.plan).without_wait(), None)
}

/// Ends the service of all posts, where there is a sink for it.
fn end_posts<Q, B, E>(
    shared: &Shared<Q, B>,
    posts: &mut [Post<B>],
    last: &mut Option<E>,
    stops: bool,
)
where
    Q: Wait,
    B: Names,
    E: Sink,
    ensures { EndsAll (map (λ p. p.seat) posts.old) (map (λ p. p.seat) posts.new)
        (last_calls E.calls last.old) (last_calls E.calls last.new) }
{
    let mut keeper = shared;
    if let Some(sink) = last {
        end_each(&mut keeper, posts, sink, stops);
    }
}

/// Ends the service of each of the posts: tries the clients that wait once more, and at a stop
/// flushes what is in a ring.
fn end_each<B, K, E>(keeper: &mut K, posts: &mut [Post<B>], sink: &mut E, stops: bool)
where
    B: Names,
    K: Keep<B>,
    E: Sink,
    ensures same { K.identity keeper.new ≡ K.identity keeper.old }
    ensures each { WhereKnown (K.domain keeper.old) (K.domain keeper.new)
        (EndsEach (λ p. p.seat) (λ p. p.waiting.items) (λ p. vec_capacity p.ranges) stops
        (K.identity keeper.old).number posts.old posts.new (E.calls sink.old) (E.calls sink.new)) }
    ensures all { EndsAll (map (λ p. p.seat) posts.old) (map (λ p. p.seat) posts.new)
        (E.calls sink.old) (E.calls sink.new) }
{
    let Some((post, more)) = posts.split_first_mut() else {
        return;
    };
    let _left = end_post(keeper, post, sink, stops);
    end_each(keeper, more, sink, stops);
}
