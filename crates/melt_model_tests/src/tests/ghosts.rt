ghost use Rattle.std.specs.Prelude.{◌≡◌, ◌+◌, [], ◌∷◌, ◌++◌};

use melt_model::{Act, Entry, Ghost};
use melt_same::same;
use std::collections::LinkedList;
use std::mem::size_of;
use std::test::Fail;

/// A history and its length. No value of it is ever made.
struct Told {
    history: LinkedList<Entry>,
    length: u64,
}

fn no_history() -> Ghost<LinkedList<Entry>>
    ensures { result ≡ [] }
{
    Ghost::pick(&())
}

/// The history has this entry too.
fn with_entry(history: &Ghost<LinkedList<Entry>>, entry: &Entry) -> Ghost<LinkedList<Entry>>
    ensures { result ≡ history.now ++ entry.now ∷ [] }
{
    Ghost::pick(&(history, entry))
}

fn nothing_told() -> Ghost<Told>
    ensures { result ≡ record { history = []; length = 0 } }
{
    Ghost::pick(&())
}

/// The history has this entry too, and is longer by one.
fn told_after(before: Ghost<Told>, entry: Entry) -> Ghost<Told>
    ensures history { result.history ≡ before.history ++ entry ∷ [] }
    ensures length { result.length ≡ before.length + 1 }
{
    Ghost::pick(&(before, entry))
}

/// Stands for code that hands a value to another thread, and lends it to one.
fn crosses<T: Send + Sync>(value: T) -> T
    ensures { result ≡ value }
{
    value
}

#[test]
fn ghosts_take_no_bytes_and_cross_threads(rt: HostRuntime) -> Result<(), Fail> {
    let made = Entry {
        thread: 0,
        act: Act::Make { refs: 1, nums: 2 },
    };
    let history = with_entry(&crosses(no_history()), &made);
    let told = told_after(nothing_told(), made);
    let again = told.again();
    same(size_of::<Ghost<LinkedList<Entry>>>(), 0)?;
    same(size_of::<Ghost<Told>>(), 0)?;
    let text = format!(in rt.alloc(); "{history:?} {told:?} {again:?}")?;
    same(text.as_str(), "Ghost Ghost Ghost")?;
    Ok(())
}
