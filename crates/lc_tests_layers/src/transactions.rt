//! Transactions on one segment.
ghost use Rattle.std.specs.Prelude.{IfOk};
ghost use Rattle.lc_tx.specs.Tx.{RunsOn};
ghost use Rattle.lc_tx.specs.OneSegment.{the_images};

use crate::expect::equal;
use lc_record::Items;
use lc_tx::{Image, OneSegment, Prepared, Tx, TxFault};
use std::alloc::{AllocError, Global};
use std::test::Fail;

static ZEROS: [u8; 64] = [0; 64];

// A segment of 64 zeros, of which no record was closed. They are made once more where there is no memory.
fn segment_of(alloc: Global) -> Result<OneSegment, AllocError> {
    let zeros = match Vec::from_slice(alloc, &ZEROS) {
        Err(_) => Vec::from_slice(alloc, &ZEROS),
        zeros => zeros,
    };
    Ok(OneSegment {
        image: Image::new(zeros?),
        records: 0,
    })
}

// Begins a transaction, once more where there is no memory.
fn begin(alloc: Global, segment: &mut OneSegment) -> Result<Tx, TxFault>
    ensures { IfOk result (λ tx. RunsOn the_images segment.new tx) }
{
    match Tx::begin(alloc, segment, 1, &[1], &[]) {
        Err(TxFault::NoMemory) if segment.image.holders().is_free() => {
            Tx::begin(alloc, segment, 1, &[1], &[])
        }
        begun => begun,
    }
}

// Sets two bytes, once more where there is no memory and no range was added.
fn set(segment: &mut OneSegment, tx: &mut Tx, offset: u32) -> Result<(), TxFault>
    requires { RunsOn the_images segment.old tx.old }
    ensures { RunsOn the_images segment.new tx.new }
{
    let before = tx.ranges().len();
    match tx.set_range(segment, 1, offset, 2) {
        Err(TxFault::NoMemory) if tx.ranges().len() == before => {
            tx.set_range(segment, 1, offset, 2)
        }
        set => set,
    }
}

// Sets and writes nine ranges.
fn write_nine(segment: &mut OneSegment, tx: &mut Tx) -> Result<(), TxFault>
    requires { RunsOn the_images segment.old tx.old }
    ensures { RunsOn the_images segment.new tx.new }
{
    for i in 0..9 {
        set(segment, tx, 4 * i)?;
        tx.write(segment, 1, 4 * i, &[1, 2])?;
    }
    Ok(())
}

// The words of a transaction's record, or none.
fn words_of(alloc: Global, segment: &mut OneSegment, tx: &Tx) -> Result<Items<u64>, TxFault>
    requires { RunsOn the_images segment.old tx.now }
    ensures { RunsOn the_images segment.new tx.now }
{
    if segment.image.bytes().len() > 262144 {
        return Err(TxFault::OutOfSegment);
    }
    match tx.prepare_end(alloc, segment, 0)? {
        Prepared::Empty => Ok(Items::new(Vec::new(alloc))),
        Prepared::Record(words) => Ok(words),
    }
}

// What a transaction reads at 32 that has written nine ranges, and the words of its record. Each call is made once
// more where there is no memory.
fn of_nine(alloc: Global, segment: &mut OneSegment) -> Result<(Vec<u8>, Items<u64>), TxFault> {
    let mut tx = begin(alloc, segment)?;
    let done = write_nine(segment, &mut tx);
    let read = match tx.read(alloc, segment, 1, 32, 3) {
        Err(TxFault::NoMemory) => tx.read(alloc, segment, 1, 32, 3),
        read => read,
    };
    let words = match words_of(alloc, segment, &tx) {
        Err(TxFault::NoMemory) => words_of(alloc, segment, &tx),
        words => words,
    };
    tx.abort(segment);
    done?;
    Ok((read?, words?))
}

// More ranges are set and more bytes kept than lie in place, so that memory is wanted for both. Whichever allocation is
// refused, once, nothing has changed then.
#[test]
fn refused_memory_changes_nothing(rt: HostRuntime) -> Result<(), Fail> {
    let mut segment = segment_of(rt.alloc())?;
    let (read, words) = of_nine(rt.alloc(), &mut segment)?;
    equal(
        &rt,
        &"what is read",
        &read.as_slice(),
        &[1, 2, 0].as_slice(),
    );
    equal(&rt, &"the words", &words.as_slice().len(), &32);
    equal(
        &rt,
        &"what is left",
        &segment.image.bytes(),
        &ZEROS.as_slice(),
    );
    Ok(())
}
