//! Each list is a ring: its nodes, and one place more that stands before its first node and after its last. So a node
//! has a neighbour on either side wherever it stands, and no list is a case of its own when it is empty.
ghost use Rattle.std.specs.Prelude.{◌≡◌, ◌<◌, ◌^◌, ◌↔◌, ℕ, Some, length, slice_get, suc, IfOk};
ghost use Rattle.std.specs.List.{Contains};
ghost use Rattle.melt_links.specs.Links.{ClosesRings, Stands, StandsNowhere, empty_lists, list_at, node_of, pushed};
ghost use Rattle.melt_links.specs.Links.{unlinked};

use melt_model::{Ghost, NoMemory};
use std::alloc::Global;
use std::collections::LinkedList;
use std::marker::Model;

/// A node, or the place before the first and after the last node of a list.
#[derive(Clone, Copy)]
pub struct Place {
    pub(crate) next: u32,
    pub(crate) prev: u32,
    /// The list that a node stands in. A node of none has the number of lists here.
    pub(crate) list: u32,
}

/// So many lists of nodes, each of which stands in one list at most.
#[derive(Drop)]
pub struct Links {
    /// Those of the nodes, and after them those of the lists.
    places: Vec<Place>,
    nodes: u32,
    lists: u32,
    standing: Ghost<LinkedList<LinkedList<u32>>>,
}

impl Model for Links {
    ghost use Rattle.melt_links.specs.Links.{NodeLists, AreKept};

    ghost Value = { NodeLists };

    ghost view = { λ links. record { nodes = links.nodes; lists = links.standing } };

    ghost invariant = { λ links. AreKept links.places.items links.nodes links.lists
        (record { nodes = links.nodes; lists = links.standing }) };
}

/// Lets each place after those of the nodes be a ring of no node.
fn close_rings(places: &mut [Place], nodes: u32)
    requires small { length places.old < 2 ^ 32 }
    ensures { ClosesRings nodes places.old places.new }
{
    for root in nodes..places.len() as u32 {
        let place = &mut places[root as usize];
        place.next = root;
        place.prev = root;
    }
}

impl Links {
    /// So many nodes, numbered from 0 on, and so many lists, all empty. Places are numbers of 32 bits, so it lacks memory
    /// too where nodes and lists are 2^32 or more together.
    pub fn new(alloc: Global, nodes: u32, lists: u32) -> Result<Links, NoMemory>
        ensures { IfOk result (λ links. links ≡ empty_lists nodes lists) }
    {
        let count = nodes.checked_add(lists).ok_or(NoMemory)?;
        let nowhere = Place {
            next: 0,
            prev: 0,
            list: lists,
        };
        let mut places = vec![in alloc; nowhere; count as usize]?;
        close_rings(&mut places, nodes);
        Ok(Links {
            places,
            nodes,
            lists,
            standing: Ghost::pick(&lists),
        })
    }

    /// Puts a node that stands in no list before all nodes of one.
    pub fn push_front(&mut self, list: u32, node: u32)
        requires list { list < length self.old.lists }
        requires node { node < self.old.nodes }
        requires alone { StandsNowhere self.old node }
        ensures { self.new ≡ pushed self.old list node }
    {
        // The place before the first node is that of the list itself, so an empty list needs no case.
        let root = self.nodes + list;
        let next = self.places[root as usize].next;
        let place = Place {
            next,
            prev: root,
            list,
        };
        self.places[node as usize] = place;
        self.places[root as usize].next = node;
        self.places[next as usize].prev = node;
        self.standing = Ghost::pick(&(&self.standing, list, node));
    }

    /// Takes a node out of the list that it stands in.
    pub fn unlink(&mut self, node: u32)
        requires { Stands self.old node }
        ensures { self.new ≡ unlinked self.old node }
    {
        let Place { next, prev, .. } = self.places[node as usize];
        self.places[prev as usize].next = next;
        self.places[next as usize].prev = prev;
        self.places[node as usize].list = self.lists;
        self.standing = Ghost::pick(&(&self.standing, node));
    }

    /// The first node of a list, if it has one.
    pub fn first(&self, list: u32) -> Option<u32>
        requires { list < length self.now.lists }
        ensures { result ≡ slice_get (list_at self.now list) 0 }
    {
        let root = self.nodes + list;
        self.node_at(self.places[root as usize].next)
    }

    /// The node after one that stands in a list, if it is not the last.
    pub fn next(&self, node: u32) -> Option<u32>
        requires { Stands self.now node }
        ensures { (list at : ℕ) → slice_get (list_at self.now list) at ≡ Some node
            → result ≡ slice_get (list_at self.now list) (suc at) }
    {
        self.node_at(self.places[node as usize].next)
    }

    /// The list that a node stands in, if there is one.
    pub fn list_of(&self, node: u32) -> Option<u32>
        requires { node < self.now.nodes }
        ensures { (list : ℕ) → (result ≡ Some list) ↔ Contains (list_at self.now list) node }
    {
        let list = self.places[node as usize].list;
        (list < self.lists).then_some(list)
    }

    /// The node at a place, which may be that of a list.
    fn node_at(&self, place: u32) -> Option<u32>
        ensures { result ≡ node_of self.now.nodes place }
    {
        // The places of lists come after those of nodes: a walk that comes to one is back at the sentinel.
        (place < self.nodes).then_some(place)
    }
}
