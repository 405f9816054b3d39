//! Leases, times and an office's own side, at the edges.

use super::*;
use stage::{INDEXES, Slot, Stage};
use std::alloc::{AllocError, Global};
use std::test::Fail;

const LAST: u64 = 18446744073709551615;

// The first index in a stage, the others absent.
fn first(stage: Stage) -> [Stage; INDEXES] {
    let mut stages = [Stage::Absent; INDEXES];
    stages[0] = stage;
    stages
}

fn lease(office: u8, stage: Stage, since: u64) -> Lease {
    Lease {
        office,
        stages: first(stage),
        since,
    }
}

// The book once these leases are noted, the oldest first.
fn book(heap: Global, long: u64, leases: &[Lease]) -> Result<Book, AllocError> {
    let mut book = Book::new(heap);
    for lease in leases {
        book.note(heap, long, *lease)?;
    }
    Ok(book)
}

// Whether the first office holds, at a reading, a lease that was noted at another.
fn held(heap: Global, long: u64, since: u64, reading: u64) -> Result<bool, AllocError> {
    let book = book(heap, long, &[lease(0, Stage::Public, since)])?;
    Ok(book.holds(long, reading, 0, &first(Stage::Public)))
}

// Whether every running lease is of a stage of the first index, where one of another was noted at 0.
fn all_at(heap: Global, long: u64, reading: u64, stage: Stage) -> Result<bool, AllocError> {
    let book = book(heap, long, &[lease(1, Stage::DeleteOnly, 0)])?;
    Ok(Slot::new(0).is_some_and(|index| book.all_at(long, reading, index, stage)))
}

// The stage of the first index in an office's newest lease.
fn newest(book: &Book, office: u8) -> Option<u8> {
    book.newest(office).map(|stages| u8::from(stages[0]))
}

fn fit(long: u64, short: u64, rate: u32) -> bool {
    Times::new(long, short, rate).is_some()
}

// The desk once these were asked for, each answered by the epoch of that number.
fn desk(heap: Global, short: u64, askings: &[u64]) -> Result<Desk, AllocError> {
    let mut desk = Desk::new(heap, short);
    for own in askings {
        desk.ask(*own);
        let _ = desk.granted(heap, *own, first(Stage::Public))?;
    }
    Ok(desk)
}

// Whether an office that asked at one reading of its clock acts at another.
fn acts(heap: Global, short: u64, asked: u64, own: u64) -> Result<bool, AllocError> {
    let desk = desk(heap, short, &[asked])?;
    Ok(desk.may(own).is_some())
}

// Until when an office acts on what it asked for.
fn until(heap: Global, short: u64, asked: u64) -> Result<Option<u64>, AllocError> {
    let mut desk = Desk::new(heap, short);
    desk.ask(asked);
    desk.granted(heap, 1, first(Stage::Absent))
}

#[test]
fn runs_before_its_end(rt: HostRuntime) -> Result<(), Fail> {
    let heap = rt.alloc();
    assert!(rt; held(heap, 10, 100, 109)? && !held(heap, 10, 100, 110)?);
    assert!(rt; held(heap, 10, 100, 0)? && !held(heap, 0, 100, 100)?);
    assert!(rt; held(heap, 10, LAST - 5, LAST)? && held(heap, LAST, LAST, LAST)?);
    assert!(rt; held(heap, LAST, 0, LAST - 1)? && !held(heap, LAST, 0, LAST)?);
    Ok(())
}

#[test]
fn all_that_run(rt: HostRuntime) -> Result<(), Fail> {
    let heap = rt.alloc();
    assert!(rt; all_at(heap, 10, 9, Stage::DeleteOnly)? && !all_at(heap, 10, 9, Stage::WriteOnly)?);
    assert!(rt; all_at(heap, 10, 10, Stage::WriteOnly)? && all_at(heap, 10, LAST, Stage::Public)?);
    Ok(())
}

#[test]
fn newer_takes_the_place(rt: HostRuntime) -> Result<(), Fail> {
    let heap = rt.alloc();
    let old = lease(63, Stage::WriteOnly, 0);
    let again = lease(63, Stage::WriteOnly, 5);
    let twice = book(heap, 10, &[old, again])?;
    assert!(rt; twice.leases.len() == 1 && twice.holds(10, 14, 63, &old.stages));
    let higher = lease(63, Stage::Public, 6);
    let beside = book(heap, 10, &[old, higher, lease(62, Stage::WriteOnly, 6)])?;
    assert!(rt; beside.leases.len() == 3 && beside.holds(10, 9, 63, &old.stages));
    assert_eq!(rt; newest(&beside, 63), Some(3));
    assert_eq!(rt; newest(&beside, 61), None);
    Ok(())
}

#[test]
fn over_is_dropped(rt: HostRuntime) -> Result<(), Fail> {
    let heap = rt.alloc();
    let old = lease(1, Stage::WriteOnly, 0);
    let running = book(heap, 10, &[old, lease(2, Stage::WriteOnly, 9)])?;
    assert_eq!(rt; running.leases.len(), 2);
    let over = book(heap, 10, &[old, lease(2, Stage::WriteOnly, 10)])?;
    assert_eq!(rt; over.leases.len(), 1);
    Ok(())
}

#[test]
fn times_fit(rt: HostRuntime) {
    assert!(rt; fit(10000, 9000, 1000) && !fit(10000, 9999, 1000));
    assert!(rt; fit(10000, 9996, 0) && !fit(10000, 9997, 0));
    assert!(rt; fit(4, 0, 0) && !fit(3, 0, 0) && !fit(0, 0, 0));
    assert!(rt; fit(LAST, LAST - 4, 0) && !fit(LAST, LAST, 0));
    assert!(rt; fit(LAST, 0, 999999) && !fit(LAST, 0, 1000000) && !fit(LAST, 0, 4294967295));
}

#[test]
fn times_are_those_given(rt: HostRuntime) -> Result<(), Fail> {
    let times = Times::new(10000, 9000, 1000).ok_or_else(|| Fail::new("they fit"))?;
    assert!(rt; times.long() == 10000 && times.short() == 9000 && times.rate() == 1000);
    Ok(())
}

#[test]
fn acts_to_the_end(rt: HostRuntime) -> Result<(), Fail> {
    let heap = rt.alloc();
    assert!(rt; acts(heap, 9000, 500, 9500)? && !acts(heap, 9000, 500, 9501)?);
    assert!(rt; acts(heap, 9000, 500, 0)? && acts(heap, 9000, LAST - 1, LAST)?);
    assert!(rt; acts(heap, LAST - 1, 0, LAST - 1)? && !acts(heap, LAST - 1, 0, LAST)?);
    assert_eq!(rt; until(heap, 9000, 500)?, Some(9500));
    assert_eq!(rt; until(heap, 9000, LAST - 1)?, Some(LAST));
    Ok(())
}

#[test]
fn asked_once(rt: HostRuntime) -> Result<(), Fail> {
    let heap = rt.alloc();
    let mut desk = desk(heap, 10, &[6])?;
    assert_eq!(rt; desk.granted(heap, 9, first(Stage::Absent))?, None);
    let grant = desk
        .may(16)
        .ok_or_else(|| Fail::new("it acts on what it asked for"))?;
    assert!(rt; grant.epoch == 6 && grant.asked == 6 && grant.stages[0].looks_up());
    Ok(())
}

#[test]
fn newest_grant(rt: HostRuntime) -> Result<(), Fail> {
    let heap = rt.alloc();
    assert_eq!(rt; desk(heap, 10, &[6, 16])?.grants.len(), 2);
    assert_eq!(rt; desk(heap, 10, &[6, 17])?.grants.len(), 1);
    let newer = desk(heap, 10, &[6, 16])?.may(16);
    let grant = newer.ok_or_else(|| Fail::new("it acts on the newer"))?;
    assert_eq!(rt; grant.epoch, 16);
    Ok(())
}
