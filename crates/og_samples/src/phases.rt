//! Phases of several workers: what is made of each item, in the items' order, that they run in more than one
//! thread, and of which chunks a gate is told.
ghost use Rattle.std.specs.Prelude.{◌≤◌};
ghost use Rattle.og_par.specs.Limits.{max_workers};

use og_base::NoMemory;
use og_par::{Crew, Gate, MAX_WORKERS, OpenGate, Piece, par_rows};
use std::alloc::{AllocGlobal, Global};
use std::sync::atomic::{AtomicBool, AtomicUsize, Ordering};
use std::thread::Threads;

// Makes of an item the item and ten times the item.
struct TenTimes;

impl Piece<u16> for TenTimes {
    ghost use Rattle.std.specs.Prelude.{◌≡◌, [], ◌∷◌, ◌*◌};

    type Out = u32;

    ghost gives = { λ piece x made. made ≡ x ∷ x * 10 ∷ [] };

    fn make(&self, _alloc: Global, item: &u16, out: &mut Vec<u32>) -> Result<(), NoMemory> {
        out.push(u32::from(*item))?;
        out.push(u32::from(*item) * 10)?;
        Ok(())
    }
}

// Lets the first two chunks look for one another.
#[derive(Drop)]
struct Meeting {
    first_is_in: AtomicBool,
    second_is_in: AtomicBool,
    first_saw: AtomicBool,
    second_saw: AtomicBool,
}

impl Gate for Meeting {
    fn enter(&self, piece: usize) {
        if piece == 0 {
            look(&self.first_is_in, &self.second_is_in, &self.first_saw);
        } else if piece == 1 {
            look(&self.second_is_in, &self.first_is_in, &self.second_saw);
        }
    }
}

// Says that this one is in, and looks whether the other is, at most 1,000,000,000 times.
fn look(own: &AtomicBool, other: &AtomicBool, saw: &AtomicBool) {
    own.store(true, Ordering::SeqCst);
    for _ in 0..1_000_000_000_u32 {
        if other.load(Ordering::SeqCst) {
            saw.store(true, Ordering::SeqCst);
            return;
        }
    }
}

// Counts how often each number of a chunk is told; those that no chunk can have are counted as one.
#[derive(Drop)]
struct Counting {
    counts: Vec<AtomicUsize>,
}

impl Gate for Counting {
    fn enter(&self, piece: usize) {
        if let Some(count) = self.counts.get(piece.min(MAX_WORKERS)) {
            count.fetch_add(1, Ordering::SeqCst);
        }
    }
}

// One count of nothing for each number.
fn counts(alloc: Global) -> Result<Vec<AtomicUsize>, NoMemory> {
    let mut counts = Vec::new(alloc);
    for _ in 0..=MAX_WORKERS {
        counts.push(AtomicUsize::new(0))?;
    }
    Ok(counts)
}

// Whether just the first numbers, as many as there are chunks, were told, each once.
fn are_told_once(counts: &[AtomicUsize], chunks: usize) -> bool {
    for (number, count) in counts.iter().enumerate() {
        if count.load(Ordering::SeqCst) != usize::from(number < chunks) {
            return false;
        }
    }
    counts.len() > MAX_WORKERS
}

// Whether each chunk is told once where that many workers make of that many items.
fn tells_chunks<H: Threads + Sync + AllocGlobal>(
    rt: &H,
    workers: usize,
    items: u16,
    chunks: usize,
) -> Result<bool, NoMemory>
    requires least { 1 ≤ workers }
    requires most { workers ≤ max_workers }
{
    let items = numbers(rt.alloc(), items)?;
    let counts = counts(rt.alloc())?;
    let gate = Counting { counts };
    let crew = Crew::new(rt, rt.alloc(), workers, &gate);
    par_rows(&crew, items.as_slice(), &TenTimes)?;
    drop(crew);
    Ok(are_told_once(gate.counts.as_slice(), chunks))
}

// The numbers from 1 up to that one.
fn numbers(alloc: Global, last: u16) -> Result<Vec<u16>, NoMemory> {
    let mut items = Vec::new(alloc);
    for number in 0..last {
        items.push(number + 1)?;
    }
    Ok(items)
}

#[test]
fn two_and_the_most_workers_keep_the_order_of_the_items(rt: HostRuntime) -> Result<(), NoMemory> {
    let items: [u16; 3] = [1, 2, 3];
    for workers in [2, MAX_WORKERS] {
        let crew = Crew::new(&rt, rt.alloc(), workers, &OpenGate);
        let made = par_rows(&crew, items.as_slice(), &TenTimes)?;
        assert_eq!(rt;
            made.as_slice(),
            [1, 10, 2, 20, 3, 30].as_slice(),
            "{workers} workers"
        );
    }
    Ok(())
}

#[test]
fn two_workers_run_at_the_same_time(rt: HostRuntime) -> Result<(), NoMemory> {
    let meeting = Meeting {
        first_is_in: AtomicBool::new(false),
        second_is_in: AtomicBool::new(false),
        first_saw: AtomicBool::new(false),
        second_saw: AtomicBool::new(false),
    };
    let items = numbers(rt.alloc(), 1000)?;
    let crew = Crew::new(&rt, rt.alloc(), 2, &meeting);
    let made = par_rows(&crew, items.as_slice(), &TenTimes)?;
    assert_eq!(rt; made.len(), 2000);
    assert!(rt; meeting.first_saw.load(Ordering::SeqCst));
    assert!(rt; meeting.second_saw.load(Ordering::SeqCst));
    Ok(())
}

#[test]
fn each_chunk_is_told_once_by_its_number(rt: HostRuntime) -> Result<(), NoMemory> {
    // The workers, the items, and the chunks that they make.
    let phases: [(usize, u16, usize); 8] = [
        (4, 0, 0),
        (4, 1, 1),
        (4, 5, 3),
        (5, 5, 5),
        (64, 5, 5),
        (1, 1000, 1),
        (3, 1000, 3),
        (64, 1000, 63),
    ];
    for (workers, items, chunks) in phases {
        assert!(rt;
            tells_chunks(&rt, workers, items, chunks)?,
            "{workers} workers, {items} items"
        );
    }
    Ok(())
}
