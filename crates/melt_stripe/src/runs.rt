//! Words that are read unit by unit, in ascending order.
ghost use Rattle.std.specs.Prelude.{◌≡◌, ◌+◌, ◌%◌, ◌^◌, ◌<◌, ◌≤◌, length, map, IfErr, IfSome, OnOk};
ghost use Rattle.melt_io.specs.Outside.{words_at};
ghost use Rattle.melt_stripe.specs.Counts.{NoneFell, RoseOf};
ghost use Rattle.melt_stripe.specs.Images.{image_of};

use crate::units::{disk_of, left_in_unit, place_of};
use melt_io::RecordReader;

/// Reads the words from word `at` on, unit by unit. Answers the reader of which a read failed, and then reads no more.
pub(crate) fn read_units<R: RecordReader>(
    readers: &mut [R],
    at: u32,
    words: &mut [u64],
) -> Result<(), u32>
    requires readers { (0 < length readers.old) × (length readers.old ≤ 8) }
    requires in_range { at + length words.old ≤ 2 ^ 32 }
    ensures words { OnOk result (IfSome (image_of (map R.image readers.old)) (λ image. words.new
        ≡ words_at image at (length words.old))) }
    ensures image { map R.image readers.new ≡ map R.image readers.old }
    ensures faults { NoneFell (map R.faults readers.old) (map R.faults readers.new) }
    ensures failed { IfErr result (λ reader. RoseOf (map R.faults readers.old) (map R.faults readers.new) reader) }
{
    let mut done = 0;
    while done < words.len() {
        let word = at + done as u32;
        let end = words.len().min(done + left_in_unit(word));
        read_run(readers, word, &mut words[done..end])?;
        done = end;
    }
    Ok(())
}

/// Reads words of one unit by the reader of the disk on which they lie. Answers this reader where its read failed.
fn read_run<R: RecordReader>(readers: &mut [R], word: u32, run: &mut [u64]) -> Result<(), u32>
    requires readers { (0 < length readers.old) × (length readers.old ≤ 8) }
    requires some { 0 < length run.old }
    requires one_unit { word % 64 + length run.old ≤ 64 }
    requires in_range { word + length run.old ≤ 2 ^ 32 }
    ensures words { OnOk result (IfSome (image_of (map R.image readers.old)) (λ image. run.new
        ≡ words_at image word (length run.old))) }
    ensures image { map R.image readers.new ≡ map R.image readers.old }
    ensures faults { NoneFell (map R.faults readers.old) (map R.faults readers.new) }
    ensures failed { IfErr result (λ reader. RoseOf (map R.faults readers.old) (map R.faults readers.new) reader) }
{
    let k = readers.len() as u32;
    let reader = disk_of(k, word);
    match readers[reader as usize].read_at(place_of(k, word), run) {
        Ok(()) => Ok(()),
        Err(_) => Err(reader),
    }
}
