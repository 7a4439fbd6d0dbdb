//! The statuses that the program ends with.
ghost use Rattle.std.specs.Prelude.{◌≡◌, ◌≤◌};
ghost use Rattle.melt_top.specs.Command.{exit_number, status_of, ended, is_disk_fault, is_damaged, is_out_of_heap};

use melt_model::{Halt, Report, ThreadEnd};

/// How a call of the program ended.
#[derive(Clone, Copy, Debug, PartialEq, Eq)]
pub enum Status {
    Done,
    Usage,
    Trace,
    ReadFault,
    DiskFault,
    OutOfHeap,
    DiskFull,
    WriteFault,
    NoMemory,
    Damaged,
    BadDump,
    Illegal,
}

impl Status {
    /// The status of the process, from 0 to 11.
    pub fn code(self) -> u8
        ensures { result ≡ exit_number self }
    {
        self as u8
    }
}

fn has_disk_fault(report: &Report) -> bool
    ensures { result ≡ ended is_disk_fault report.now }
{
    let threads = report.threads.items.as_slice();
    threads
        .iter()
        .any(|thread| matches!(thread.end, ThreadEnd::DiskFault))
}

fn has_damage(report: &Report) -> bool
    ensures { result ≡ ended is_damaged report.now }
{
    let threads = report.threads.items.as_slice();
    threads
        .iter()
        .any(|thread| matches!(thread.end, ThreadEnd::Damaged { .. }))
}

fn has_out_of_heap(report: &Report) -> bool
    ensures { result ≡ ended is_out_of_heap report.now }
{
    let threads = report.threads.items.as_slice();
    threads
        .iter()
        .any(|thread| matches!(thread.end, ThreadEnd::OutOfHeap { .. }))
}

/// The status of a report: where several apply, a disk fault first, then damage, a full disk, and want
/// of room in the heap.
pub fn status_for(report: &Report) -> Status
    ensures { result ≡ status_of report.now }
{
    if has_disk_fault(report) || matches!(report.halt, Some(Halt::DiskFault)) {
        Status::DiskFault
    } else if has_damage(report) {
        Status::Damaged
    } else if matches!(report.halt, Some(Halt::DiskFull { .. })) {
        Status::DiskFull
    } else if has_out_of_heap(report) {
        Status::OutOfHeap
    } else {
        Status::Done
    }
}
