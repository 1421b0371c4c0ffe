//! Simulations over files in memory that crash at a call: what wasn't synced then is lost, kept, or torn; and scenarios
//! over such files that don't stop.
ghost use Rattle.std.specs.Prelude.{◌≡◌, false, IfOk};

use anyhow::{Context, Result, bail, ensure};
use bank_scenarios::{Counts, End, Simulation, play as play_scenario};
use sqlite::{Connection, FileStore, Files, Options};
use sqlite_disk::{Crash, Disk, Fuse, Memory};
use std::alloc::{Alloc, AllocError, Global};

// A file that passes so many calls on, and fails each one after them. That simulations are over any such file keeps
// their proof short.
pub trait Stopping: Disk + Drop {
    // A file with these bytes.
    fn over(alloc: Global, bytes: &[u8], calls: u64) -> Result<Self>;

    // Whether it fails each call.
    fn has_stopped(&mut self) -> bool;

    // Stops it: what was written, and what of that is left for certain.
    fn left(&mut self, alloc: Global) -> Result<(Vec<u8>, Vec<u8>), AllocError>;
}

impl Stopping for Fuse<Memory> {
    fn over(alloc: Global, bytes: &[u8], calls: u64) -> Result<Self> {
        let mut file = Memory::new(alloc);
        if file.may_be_used() {
            file.write_at(0, bytes)?;
        }
        if file.may_be_used() {
            file.sync()?;
        }
        Ok(Fuse::new(file, calls))
    }

    fn has_stopped(&mut self) -> bool {
        !self.may_be_used() || self.len().is_err()
    }

    fn left(&mut self, alloc: Global) -> Result<(Vec<u8>, Vec<u8>), AllocError> {
        let written = self.inner().bytes().to_vec(alloc)?;
        self.crash();
        let synced = self.inner().bytes().to_vec(alloc)?;
        Ok((written, synced))
    }
}

const SECTOR_BYTES: usize = 512;

// The bytes of the database file and of its log.
#[derive(Drop)]
struct Image {
    db: Vec<u8>,
    log: Vec<u8>,
}

impl Image {
    fn new(alloc: Global) -> Self {
        Image {
            db: Vec::new(alloc),
            log: Vec::new(alloc),
        }
    }
}

// A small cache and a log of drawn length, so that a posting reads, writes and copies the log back.
fn options(simulation: &mut Simulation) -> Options {
    Options {
        cache_pages: 2,
        spill_pages: 2,
        checkpoint_frames: simulation.draw(40).saturating_add(3) as usize,
        seed: 7,
    }
}

// How many calls on the database file and on its log pass.
fn passed(simulation: &mut Simulation) -> (u64, u64) {
    if simulation.is_last() {
        return (u64::MAX, u64::MAX);
    }
    let most = match simulation.draw(4) {
        0 => 30,
        1 => 100,
        2 => 300,
        _ => 1_000,
    };
    let calls = u64::from(simulation.draw(most));
    if simulation.draw(2) == 0 {
        (calls, u64::MAX)
    } else {
        (u64::MAX, calls)
    }
}

fn files_of<F: Stopping>(alloc: Global, left: &Image, calls: (u64, u64)) -> Result<Files<F>> {
    let log = F::over(alloc, left.log.as_slice(), calls.1)?;
    let db = F::over(alloc, left.db.as_slice(), calls.0)?;
    Ok(Files { log, db })
}

// A life over files.
fn lived<D: Disk + Drop>(
    alloc: Global,
    simulation: &mut Simulation,
    files: Files<D>,
) -> (End, Files<D>) {
    if !files.may_be_used() {
        return (End::Differs("a new file"), files);
    }
    let options = options(simulation);
    match Connection::open_files(alloc, files, options) {
        Ok(conn) => {
            let (end, store) = simulation.live(conn);
            (end, store.close())
        }
        Err((_, left)) => (simulation.fail_to_open(), left.into_files()),
    }
}

// What is left of a file that stopped.
fn left_of<F: Stopping>(
    alloc: Global,
    simulation: &mut Simulation,
    file: &mut F,
) -> Result<Vec<u8>, AllocError> {
    let (written, synced) = file.left(alloc)?;
    match simulation.draw(4) {
        0 => Ok(written),
        1 => Ok(synced),
        _ => torn(alloc, simulation, written.as_slice(), synced.as_slice()),
    }
}

// The file has a length between, and each of its sectors is the old one, the new one, or has any bytes where they differ.
fn torn(
    alloc: Global,
    simulation: &mut Simulation,
    written: &[u8],
    synced: &[u8],
) -> Result<Vec<u8>, AllocError> {
    let least = written.len().min(synced.len());
    let most = written.len().max(synced.len());
    let between = u32::try_from(most - least).unwrap_or(0).saturating_add(1);
    let length = least.saturating_add(simulation.draw(between) as usize);
    let mut bytes = Vec::new(alloc);
    let mut way = 0u32;
    for at in 0..length {
        if at % SECTOR_BYTES == 0 {
            way = simulation.draw(3);
        }
        let (new, old) = (written.get(at).copied(), synced.get(at).copied());
        bytes.push(byte_left(simulation, way, new, old))?;
    }
    Ok(bytes)
}

// What is left of a byte that was written and not synced, in a sector that is left in this way.
fn byte_left(simulation: &mut Simulation, way: u32, new: Option<u8>, old: Option<u8>) -> u8 {
    let left = match way {
        0 => new.or(old),
        1 => old.or(new),
        _ if new == old => new,
        _ => u8::try_from(simulation.draw(256)).ok(),
    };
    left.unwrap_or(0)
}

// How a life ended over these files. Its store fails only where one of them stopped.
fn ended<F: Stopping>(end: End, files: &mut Files<F>) -> End {
    let has_stopped = files.db.has_stopped() || files.log.has_stopped();
    match end {
        End::Stopped if !has_stopped => End::Differs("a store fault without a stop"),
        end => end,
    }
}

// A life over what the one before it left, and what it leaves.
fn life<F: Stopping>(
    alloc: Global,
    simulation: &mut Simulation,
    left: &Image,
) -> Result<(End, Image)> {
    let calls = passed(simulation);
    let files = files_of::<F>(alloc, left, calls)?;
    let (end, mut files) = lived(alloc, simulation, files);
    let end = ended(end, &mut files);
    let db = left_of(alloc, simulation, &mut files.db)?;
    let log = left_of(alloc, simulation, &mut files.log)?;
    Ok((end, Image { db, log }))
}

// A replay reads no page twice.
const REPLAYED: Options = Options {
    cache_pages: 1_000,
    spill_pages: 1_000,
    checkpoint_frames: 1_000,
    seed: 7,
};

// Replays what a life left, over files that don't stop.
fn replayed<D: Disk + Drop>(alloc: Global, simulation: &mut Simulation, files: Files<D>) -> End {
    if !files.may_be_used() {
        return End::Differs("a copy of the files");
    }
    match Connection::open_files(alloc, files, REPLAYED) {
        Ok(conn) => simulation.replay_left(conn),
        Err((_, _left)) => End::Stopped,
    }
}

fn replay_left<F: Stopping>(
    alloc: Global,
    simulation: &mut Simulation,
    left: &Image,
) -> Result<()> {
    let files = files_of::<F>(alloc, left, (u64::MAX, u64::MAX))?;
    let end = replayed(alloc, simulation, files);
    ensure!(end == End::Done, "differs: a replay of what was left");
    Ok(())
}

/// A connection over new files in memory that don't stop.
pub fn open_in_memory<F: Stopping>(alloc: Global) -> Result<Connection<FileStore<F>>>
    ensures { IfOk result (λ conn. conn.in_transaction ≡ false) }
{
    let files = files_of::<F>(alloc, &Image::new(alloc), (u64::MAX, u64::MAX))?;
    ensure!(files.may_be_used(), "new files");
    match Connection::open_files(alloc, files, REPLAYED) {
        Ok(conn) => Ok(conn),
        Err((_, _left)) => bail!("new files that aren't opened"),
    }
}

/// Plays a scenario, whose bank in tables lies in such files.
pub fn play_over<F: Stopping>(rt: &(impl Print + Alloc<A = Global>), scenario: &str) -> Result<()> {
    play_scenario(rt, open_in_memory::<F>(rt.alloc())?, scenario)
}

// The lives of a seed, until all is answered and found again.
fn play<F: Stopping>(alloc: Global, seed: u64) -> Result<Counts> {
    let mut simulation = Simulation::new(alloc, seed)?;
    let mut left = Image::new(alloc);
    for _ in 0..100u32 {
        let (end, after) = life::<F>(alloc, &mut simulation, &left)?;
        replay_left::<F>(alloc, &mut simulation, &after)?;
        if simulation.is_done(end)? {
            return Ok(*simulation.counts());
        }
        left = after;
    }
    bail!("lives that don't end")
}

fn play_each<F: Stopping>(alloc: Global, seed: u64, count: u64) -> Result<Counts> {
    let mut all = Counts::none();
    for more in 0..count {
        let seed = seed.saturating_add(more);
        match play::<F>(alloc, seed) {
            Ok(counts) => all.add(&counts),
            Err(error) => bail!("seed {seed}: {error}"),
        }
    }
    Ok(all)
}

/// Plays the simulations of so many seeds, and tells what they did.
pub fn simulate(rt: &HostRuntime, rest: &str) -> Result<()> {
    let (seed, count) = rest.split_once(' ').context("a seed and a count")?;
    let seed = seed.parse::<u64>().ok().context("a seed")?;
    let count = count.parse::<u64>().ok().context("a count")?;
    let all = play_each::<Fuse<Memory>>(rt.alloc(), seed, count)?;
    println!(rt; "  {all}")?;
    Ok(())
}
