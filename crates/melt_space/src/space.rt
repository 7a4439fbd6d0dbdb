//! A space of 64-bit words, in which objects are made one after the other.
ghost use Rattle.std.specs.Prelude.{◌≡◌, ◌+◌, ◌-◌, ◌^◌, ◌<◌, ◌≤◌, ◌++◌, [], drop, length, if◌then◌else◌, take, IfErr, IfOk};
ghost use Rattle.std.specs.Prelude.{IsErr, OnErr};
ghost use Rattle.std.specs.Vec.{vec_capacity};
ghost use Rattle.melt_word.specs.Words.{IsHeader, IsShape, cost_of, header_word};
ghost use Rattle.melt_word.specs.declared.header.Header.{Header};
ghost use Rattle.melt_space.specs.Space.{AreWords, HasHeader, IsFresh, IsSpace, IsWord, Lacks, Makes, Replaces};
ghost use Rattle.melt_space.specs.Space.{SetsWord, word_at};

use melt_model::NoMemory;
use melt_word::{Header, Shape, cost, encode_header, shape_of};
use std::alloc::Global;
use std::marker::Model;
use std::mem::replace;
use thiserror::Error;

/// No room for an object: the words that are free, and those that it needs, from 2 to 126.
#[derive(Clone, Copy, Debug, PartialEq, Eq, Error)]
#[error("no room for an object of {need} words where {free} are free")]
pub struct NoRoom {
    pub free: u32,
    pub need: u32,
}

/// Words numbered from 1, at most `MAX_ADDRESS` of them. Those from word 1 on are in use, as many as
/// `used` tells, and the others are free.
#[derive(Debug, Drop)]
pub struct Space {
    words: Vec<u64>,
    used: u32,
    /// A vector whose items are of no use, kept for the next copy.
    spare: Option<Vec<u64>>,
}

impl Model for Space {
    ghost use Rattle.melt_space.specs.Space.{SpaceWords, IsSpace};

    ghost Value = { SpaceWords };

    ghost view = { λ space. record { list = space.words.items; used = space.used } };

    ghost invariant = { λ space. IsSpace (record { list = space.words.items; used = space.used }) };
}

/// Puts these words in the place of the first ones.
fn put_front(list: &mut [u64], words: &[u64])
    requires { length words.now ≤ length list.old }
    ensures { list.new ≡ words.now ++ drop (length words.now) list.old }
{
    list[..words.len()].copy_from_slice(words);
}

/// Cuts these words after the first ones, so many of them, and puts those of the list after them that stand there,
/// where these are fewer and there is room for them. Answers whether it did.
fn complete(words: &mut Vec<u64>, count: usize, list: &[u64]) -> bool
    requires given { count ≤ length words.old.items }
    requires fits { count ≤ length list.now }
    ensures { words.new.items ≡ (if result then take count words.old.items
        ++ drop count list.now else words.old.items) }
{
    let after = list.len() - count;
    if after >= count || words.capacity() < list.len() {
        return false;
    }
    words.truncate(count);
    if words.extend_from_slice(&list[count..]).is_err() {
        // Where there is room, no memory is taken.
        unreachable!()
    }
    true
}

/// Puts the first of these words, so many of them, in the place of the first ones, and gives the vector that is left
/// over.
fn exchange(list: &mut Vec<u64>, mut words: Vec<u64>, count: usize) -> Vec<u64>
    requires given { count ≤ length words.items }
    requires fits { count ≤ length list.old.items }
    ensures { list.new.items ≡ take count words.items ++ drop count list.old.items }
{
    if complete(&mut words, count, list) {
        return replace(list, words);
    }
    // The smaller part moves. Here what stands after the copy is as much or more, or has no room there.
    put_front(list, &words[..count]);
    words
}

impl Space {
    /// A space of so many words, at most `MAX_ADDRESS`. Each is 0, and none is in use.
    pub fn new(alloc: Global, words: u32) -> Result<Space, NoMemory>
        requires { words < 2 ^ 30 }
        ensures { IfOk result (IsFresh words) }
    {
        let words = vec![in alloc; 0; words as usize]?;
        Ok(Space {
            words,
            used: 0,
            spare: None,
        })
    }

    /// Makes a clean object in the first free words and answers its address. It has no home, its
    /// references are null and its numbers are 0.
    ///
    /// Fails only where fewer words are free than the object needs.
    pub fn make(&mut self, shape: Shape) -> Result<u32, NoRoom>
        requires { IsShape shape }
        ensures made { IfOk result (Makes self.old self.new shape) }
        ensures refused { IfErr result (Lacks self.old shape) }
        ensures unchanged { OnErr result (self.new ≡ self.old) }
        ensures room { length self.old.list - self.old.used < cost_of shape → IsErr result }
    {
        let need = cost(shape);
        let free = self.words() - self.used;
        if free < need {
            return Err(NoRoom { free, need });
        }
        let start = self.used as usize;
        let header = Header {
            shape,
            stale: false,
        };
        let object = &mut self.words[start..start + need as usize];
        object.fill(0);
        object[0] = encode_header(header);
        let address = self.used + 1;
        self.used += need;
        Ok(address)
    }

    /// The shape that the header at the address tells, be it clean or stale.
    pub fn shape(&self, address: u32) -> Shape
        requires word { IsWord self.now address }
        requires header { HasHeader self.now address }
        ensures { (h : Header) → IsHeader h → word_at self.now address ≡ header_word h → result ≡ h.shape }
    {
        shape_of(self.word(address))
    }

    /// The word at an address, from 1 to the number of words.
    pub fn word(&self, at: u32) -> u64
        requires { IsWord self.now at }
        ensures { result ≡ word_at self.now at }
    {
        self.words[at as usize - 1]
    }

    /// The words from an address on, so many of them, all within the words that there are.
    pub fn words_at(&self, at: u32, count: u32) -> &[u64]
        requires first { 1 ≤ at }
        requires last { at + count ≤ length self.now.list + 1 }
        ensures { AreWords self.now at count result.now }
    {
        let start = at as usize - 1;
        &self.words[start..start + count as usize]
    }

    /// Replaces the word at an address, from 1 to the number of words.
    pub fn set_word(&mut self, at: u32, word: u64)
        requires { IsWord self.old at }
        ensures { SetsWord self.old self.new at word }
    {
        self.words[at as usize - 1] = word;
    }

    /// How many words there are.
    pub fn words(&self) -> u32
        ensures value { result ≡ length self.now.list }
        ensures within { IsSpace self.now }
    {
        self.words.len() as u32
    }

    /// How many words are in use.
    pub fn used(&self) -> u32
        ensures value { result ≡ self.now.used }
        ensures within { IsSpace self.now }
    {
        self.used
    }

    /// Says that so many words are in use, at most all of them. No word changes.
    pub fn set_used(&mut self, used: u32)
        requires { used ≤ length self.old.list }
        ensures { self.new ≡ record self.old { used = used } }
    {
        self.used = used;
    }

    /// How many words a vector for the next copy has room for: those in use at least. Where these are most of all words,
    /// it is all, so that the copy can take their place.
    fn room(&self) -> usize
        ensures used { self.now.used ≤ result }
        ensures all { result ≤ length self.now.list }
    {
        let used = self.used as usize;
        let all = self.words.len();
        if all - used < used { all } else { used }
    }

    /// An empty vector with room for the words in use, for a copy of them that `replace` puts in their place.
    ///
    /// Takes memory only where no vector is kept, or one that is too small, which is let go first.
    pub fn room_for_copy(&mut self, alloc: Global) -> Result<Vec<u64>, NoMemory>
        ensures empty { IfOk result (λ room. room.items ≡ []) }
        ensures room { IfOk result (λ room. self.old.used ≤ vec_capacity room) }
        ensures unchanged { self.new ≡ self.old }
    {
        if let Some(mut spare) = self.spare.take() {
            if self.used as usize <= spare.capacity() {
                spare.clear();
                return Ok(spare);
            }
        }
        Ok(Vec::with_capacity(alloc, self.room())?)
    }

    /// As many words as are in use, or more, for a copy that `replace_first` puts in their place. They have no meaning
    /// before they are written, and so those of the copy before are not cleared.
    ///
    /// Takes memory only where no vector is kept, or one that is too small, which is let go first.
    pub fn words_for_copy(&mut self, alloc: Global) -> Result<Vec<u64>, NoMemory>
        ensures room { IfOk result (λ words. self.old.used ≤ length words.items) }
        ensures unchanged { self.new ≡ self.old }
    {
        let used = self.used as usize;
        if let Some(mut spare) = self.spare.take() {
            if used <= spare.len() {
                return Ok(spare);
            }
            if used <= spare.capacity() {
                spare.resize(used, 0)?;
                return Ok(spare);
            }
        }
        Ok(vec![in alloc; 0; self.room()]?)
    }

    /// Puts these words, at most all of them, in the place of the first ones, and says that they are those in use.
    /// Keeps the vector for the next copy.
    pub fn replace(&mut self, words: Vec<u64>)
        requires { length words.items ≤ length self.old.list }
        ensures { Replaces self.old self.new words.items }
    {
        let count = words.len();
        self.replace_first(words, count);
    }

    /// As `replace`, of the first of these words alone, so many of them.
    pub fn replace_first(&mut self, words: Vec<u64>, count: usize)
        requires given { count ≤ length words.items }
        requires fits { count ≤ length self.old.list }
        ensures { Replaces self.old self.new (take count words.items) }
    {
        self.spare = Some(exchange(&mut self.words, words, count));
        self.used = count as u32;
    }
}
