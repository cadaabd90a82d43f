//! The record of a transaction's runs.
ghost use Rattle.std.specs.Prelude.{◌≡◌, ◌+◌, ◌*◌, ◌<◌, ◌≤◌, ◌^◌, [], ◌∷◌, ◌++◌, length, map, take, drop, unwrap_or};
ghost use Rattle.std.specs.Prelude.{vec_capacity, IfOk, OnErr};
ghost use Rattle.std.specs.List.{AllByRecursion, flat_map};
ghost use Rattle.lc_record.specs.Words.{AreBytes};
ghost use Rattle.lc_record.specs.Layout.{layout_len};
ghost use Rattle.lc_record.specs.Record.{spelling as spelling_of, lock_words, range_words};
ghost use Rattle.lc_range.specs.RangeSet.{EndWithin};
ghost use Rattle.lc_tx.specs.Images.{IsSame};
ghost use Rattle.lc_tx.specs.Prepared.{AreUnspent, next_number, run_data, runs_record, segments_of};
ghost use Rattle.lc_tx.specs.Walk.{locks_of, runs_layout, spent_in, AreFromOne, AreInside};

use crate::Images;
use lc_range::Range;
use lc_record::{Layout, Lock, MAX_SEQ, Spelling};
use std::alloc::AllocError;

// The number of a segment's token.
fn number<I: Images>(images: &I, segment: u32) -> u64
    ensures { result ≡ unwrap_or (I.number_of images.now segment) 0 }
{
    images.number(segment).unwrap_or(0)
}

/// The first segment of these runs that has used its last number.
pub fn first_spent<I: Images>(images: &I, runs: &[Range]) -> Option<u32>
    ensures { result ≡ spent_in I.Images images.now runs.now }
{
    for run in runs {
        if number(images, run.segment) >= MAX_SEQ {
            return Some(run.segment);
        }
    }
    None
}

/// How the record of these runs is laid out.
pub fn layout_of(runs: &[Range]) -> Layout
    requires few { length runs.now ≤ 64 }
    requires short { EndWithin runs.now 262144 }
    requires numbered { AreFromOne runs.now }
    ensures laid { result ≡ runs_layout runs.now }
    ensures fits { layout_len result < 2 ^ 32 }
{
    // One run alone needs no walk.
    if let [run] = runs {
        return Layout::of_one(run.offset, run.len as usize);
    }
    let mut layout = Layout::new();
    let mut last = 0;
    for run in runs {
        if run.segment != last {
            last = run.segment;
            layout.add_lock();
        }
    }
    for run in runs {
        layout.add_range(run.offset, run.len as usize);
    }
    layout
}

/// The words of the record of these runs: the next number of each segment, and the bytes of each run, straight from the
/// images, in the memory of a list whose own words go. It takes memory only where that has no room for all of them.
pub fn spell<I: Images>(
    memory: Vec<u64>,
    images: &mut I,
    runs: &[Range],
    node: u16,
    layout: &Layout,
) -> Result<Vec<u64>, AllocError>
    requires numbered { AreFromOne runs.now }
    requires unspent { AreUnspent (locks_of I.Images images.old runs.now) }
    requires inside { AreInside I.Images images.old runs.now }
    requires laid { layout.now ≡ runs_layout runs.now }
    requires short { layout_len layout.now ≤ 4096 }
    ensures words { IfOk result (λ words. words.items ≡ spelling_of (runs_record I.Images images.old runs.now node)) }
    ensures fit { IfOk result (λ words. AllByRecursion (λ it. AreBytes it.bytes)
        (map (run_data I.Images images.old) runs.now)) }
    ensures same { IsSame I.Images images.old images.new }
    ensures memory { OnErr result (vec_capacity memory < layout_len layout.now) }
{
    let mut spelling = Spelling::in_memory_of(memory, node, layout)?;
    add_locks(&mut spelling, images, runs);
    add_ranges(&mut spelling, images, runs);
    Ok(spelling.finish())
}

// Adds a lock for each segment of these runs, with its next number.
fn add_locks<I: Images>(spelling: &mut Spelling, images: &I, runs: &[Range])
    requires numbered { AreFromOne runs.now }
    requires unspent { AreUnspent (locks_of I.Images images.now runs.now) }
    requires room { length spelling.old.words + 2 * length (segments_of runs.now) ≤ spelling.old.len }
    ensures { spelling.new ≡ record spelling.old {
      words = spelling.old.words ++ flat_map lock_words (locks_of I.Images images.now runs.now);
    } }
{
    // One run alone needs no walk.
    if let [only] = runs {
        add_next_lock(spelling, images, only.segment);
        return;
    }
    let mut last = 0;
    for run in runs {
        if run.segment != last {
            last = run.segment;
            add_next_lock(spelling, images, last);
        }
    }
}

// Adds a lock of a segment, with its next number.
fn add_next_lock<I: Images>(spelling: &mut Spelling, images: &I, segment: u32)
    requires unspent { next_number I.Images images.now segment ≤ 2 ^ 60 }
    requires room { length spelling.old.words + 2 ≤ spelling.old.len }
    ensures { spelling.new ≡ record spelling.old {
      words = spelling.old.words
          ++ lock_words (record { segment = segment; seq = next_number I.Images images.now segment });
    } }
{
    let seq = number(images, segment) + 1;
    spelling.add_lock(Lock { segment, seq });
}

// Adds the runs, with the bytes that the images have there.
fn add_ranges<I: Images>(spelling: &mut Spelling, images: &mut I, runs: &[Range])
    requires inside { AreInside I.Images images.old runs.now }
    requires room { length spelling.old.words
        + length (flat_map (range_words spelling.old.version) (map (run_data I.Images images.old) runs.now))
        ≤ spelling.old.len }
    ensures spelled { spelling.new ≡ record spelling.old {
      words = spelling.old.words
          ++ flat_map (range_words spelling.old.version) (map (run_data I.Images images.old) runs.now);
    } }
    ensures fit { AllByRecursion (λ it. AreBytes it.bytes) (map (run_data I.Images images.old) runs.now) }
    ensures same { IsSame I.Images images.old images.new }
{
    // One run alone needs no walk.
    if let [only] = runs {
        add_run(spelling, images, only);
        return;
    }
    for run in runs {
        add_run(spelling, images, run);
    }
}

// Adds a run, with the bytes that the images have there.
fn add_run<I: Images>(spelling: &mut Spelling, images: &mut I, run: &Range)
    requires inside { AreInside I.Images images.old (run.now ∷ []) }
    requires room { length spelling.old.words
        + length (range_words spelling.old.version (run_data I.Images images.old run.now)) ≤ spelling.old.len }
    ensures spelled { spelling.new ≡ record spelling.old {
      words = spelling.old.words ++ range_words spelling.old.version (run_data I.Images images.old run.now);
    } }
    ensures fit { AreBytes (run_data I.Images images.old run.now).bytes }
    ensures same { IsSame I.Images images.old images.new }
{
    let image = images.image(run.segment);
    let bytes = run_bytes(image.bytes(), run);
    spelling.add_range(run.segment, run.offset, bytes);
}

// The bytes that an image has in a run.
fn run_bytes<'a>(image: &'a [u8], run: &Range) -> &'a [u8]
    requires { run.now.offset + run.now.len ≤ length image.now }
    ensures bytes { result.now ≡ take run.now.len (drop run.now.offset image.now) }
    ensures fit { AreBytes result.now }
{
    let start = run.offset as usize;
    &image[start..start + run.len as usize]
}
