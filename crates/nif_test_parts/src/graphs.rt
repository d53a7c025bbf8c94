//! What strong references lead to, in files of nodes with a child and a target each.
use nif_base::MemSource;
use nif_builtin::builtin::SCENE;
use nif_check::{Checked, check};
use nif_file_reader::decode_file;
use nif_graph::Graph;
use nif_read::read_schema;
use std::alloc::Global;
use std::test::Fail;

/// A reference that names no block.
const NONE: u32 = u32::MAX;

/// A node by the places of its child, a strong reference, and of its target, a weak one.
#[derive(Clone, Copy)]
struct Node {
    child: u32,
    target: u32,
}

/// Puts a number of four bytes.
fn put(bytes: &mut Vec<u8>, number: u32) -> Result<(), Fail> {
    bytes.extend_from_slice(&number.to_le_bytes())?;
    Ok(())
}

/// The bytes of a file of nodes, without a root.
fn file_of(alloc: Global, nodes: &[Node]) -> Result<Vec<u8>, Fail> {
    let Ok(count) = u32::try_from(nodes.len()) else {
        return Err("too many nodes".into());
    };
    let mut bytes = Vec::new(alloc);
    bytes.extend_from_slice(b"Gamebryo File Format, Version 20.2.0.7\n\x07\0\x02\x14\x01\0\0\0\0")?;
    put(&mut bytes, count)?;
    bytes.extend_from_slice(b"\x01\0\x09\0\0\0SceneNode")?;
    for _ in nodes {
        bytes.extend_from_slice(b"\0\0")?;
    }
    for _ in nodes {
        put(&mut bytes, 17)?;
    }
    bytes.extend_from_slice(&[0; 12])?;
    for node in nodes {
        put(&mut bytes, NONE)?;
        put(&mut bytes, 1)?;
        put(&mut bytes, node.child)?;
        put(&mut bytes, node.target)?;
        bytes.extend_from_slice(b"\x01")?;
    }
    put(&mut bytes, 0)?;
    Ok(bytes)
}

/// The graph of such a file.
fn graph_of(alloc: Global, nodes: &[Node]) -> Result<Graph, Fail> {
    let checked = check(alloc, read_schema(alloc, SCENE)?)?;
    let bytes = file_of(alloc, nodes)?;
    let mut source = MemSource::new(bytes.as_slice(), 4096, None);
    Ok(decode_file(alloc, &checked, &mut source)?)
}

/// Whether strong references lead from the block of a place to that of another.
fn leads(graph: &mut Graph, from: u32, to: u32) -> Result<bool, Fail> {
    if from >= graph.count() || to >= graph.count() {
        return Err("no such block".into());
    }
    let from = graph.name_at(from);
    let to = graph.name_at(to);
    Ok(graph.reaches(from, to))
}

#[test]
fn follows_strong_references_alone(rt: HostRuntime) -> Result<(), Fail> {
    let first = Node {
        child: 1,
        target: 1,
    };
    let second = Node {
        child: 2,
        target: 0,
    };
    let third = Node {
        child: NONE,
        target: 0,
    };
    let mut graph = graph_of(rt.alloc(), &[first, second, third])?;
    assert!(rt; leads(&mut graph, 0, 2)?);
    assert!(rt; !leads(&mut graph, 2, 0)?);
    assert!(rt; !leads(&mut graph, 0, 0)?);
    Ok(())
}

/// Two cycles, of two blocks and of one, and no way from one to the other.
#[test]
fn ends_in_cycles(rt: HostRuntime) -> Result<(), Fail> {
    let to = |child: u32| Node {
        child,
        target: NONE,
    };
    let mut graph = graph_of(rt.alloc(), &[to(1), to(0), to(2)])?;
    assert!(rt; leads(&mut graph, 0, 0)?);
    assert!(rt; leads(&mut graph, 1, 0)?);
    assert!(rt; leads(&mut graph, 2, 2)?);
    assert!(rt; !leads(&mut graph, 0, 2)?);
    assert!(rt; !leads(&mut graph, 2, 1)?);
    Ok(())
}

/// As many blocks as a file has at most, each the child of the one before it.
#[test]
fn goes_through_the_longest_chain(rt: HostRuntime) -> Result<(), Fail> {
    let last = (1 << 20) - 1;
    let mut nodes = Vec::new(rt.alloc());
    for place in 0..last {
        nodes.push(Node {
            child: place + 1,
            target: 0,
        })?;
    }
    nodes.push(Node {
        child: NONE,
        target: 0,
    })?;
    let mut graph = graph_of(rt.alloc(), nodes.as_slice())?;
    assert!(rt; leads(&mut graph, 0, last)?);
    assert!(rt; !leads(&mut graph, last, 0)?);
    Ok(())
}
