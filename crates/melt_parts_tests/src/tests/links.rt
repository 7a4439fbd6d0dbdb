ghost use Rattle.std.specs.Prelude.{◌≡◌, ◌<◌, length};

use melt_links::Links;
use melt_same::same;
use std::test::Fail;

/// On how many nodes and lists the random calls are made.
const NODES: u32 = 16;

const LISTS: u32 = 3;

#[test]
fn a_list_has_what_was_put_into_it(rt: HostRuntime) -> Result<(), Fail> {
    let mut links = Links::new(rt.alloc(), 4, 2)?;
    links.push_front(0, 1);
    links.push_front(0, 3);
    let before = [links.first(0), links.next(3), links.next(1), links.first(1)];
    links.unlink(3);
    let after = [links.first(0), links.list_of(3), links.list_of(1)];
    let wanted = [Some(3), Some(1), None, None];
    same((before, after), (wanted, [Some(1), None, Some(0)]))
}

/// Compares a list, from its first node to the end, with pairs of a list and a node. Those that were put there last
/// stand last among the pairs.
fn compare_list(links: &Links, list: u32, put: &[(u32, u32)]) -> Result<(), Fail>
    requires { list < length links.now.lists }
{
    let mut at = links.first(list);
    for &(of, node) in put.iter().rev() {
        if of == list {
            same((list, at), (list, Some(node)))?;
            at = links.next(node);
        }
    }
    same((list, at), (list, None))
}

/// Compares in which list each node stands with such pairs.
fn compare_nodes(links: &Links, put: &[(u32, u32)]) -> Result<(), Fail>
    requires { links.now.nodes ≡ 16 }
{
    for node in 0..NODES {
        let pair = put.iter().find(|pair| pair.1 == node);
        let want = pair.map(|pair| pair.0);
        same((node, links.list_of(node)), (node, want))?;
    }
    Ok(())
}

fn compare(links: &Links, put: &[(u32, u32)]) -> Result<(), Fail>
    requires nodes { links.now.nodes ≡ 16 }
    requires lists { length links.now.lists ≡ 3 }
{
    for list in 0..LISTS {
        compare_list(links, list, put)?;
    }
    compare_nodes(links, put)
}

/// Takes a node out of the list in which it stands, or else puts it into this one, and compares all lists.
fn move_node(links: &mut Links, put: &mut Vec<(u32, u32)>, list: u32, node: u32) -> Result<(), Fail>
    requires nodes { links.old.nodes ≡ 16 }
    requires lists { length links.old.lists ≡ 3 }
    requires node { node < 16 }
    requires list { list < 3 }
    ensures nodes { links.new.nodes ≡ 16 }
    ensures lists { length links.new.lists ≡ 3 }
{
    if let Some(_) = links.list_of(node) {
        links.unlink(node);
        put.retain(|pair| pair.1 != node);
    } else {
        links.push_front(list, node);
        put.push((list, node))?;
    }
    compare(links, put)
}

#[test]
fn random_calls_leave_what_a_plain_vector_has(rt: HostRuntime) -> Result<(), Fail> {
    let mut links = Links::new(rt.alloc(), NODES, LISTS)?;
    let mut put: Vec<(u32, u32)> = Vec::new(rt.alloc());
    let mut draw = 1u32;
    for _ in 0..4_000 {
        draw = draw.wrapping_mul(1_664_525).wrapping_add(1_013_904_223);
        let list = (draw >> 16) % LISTS;
        let node = (draw >> 24) % NODES;
        move_node(&mut links, &mut put, list, node)?;
    }
    Ok(())
}
