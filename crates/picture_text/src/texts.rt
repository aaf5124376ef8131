// The text.

ghost use Rattle.std.specs.Prelude.{◌≡◌, ◌++◌, IfOk, OnOk, codes};
ghost use Rattle.std.specs.List.{flat_map};
ghost use Rattle.picture_text.specs.Texts.{arrow_text, by_change, dead_text, frame_text, head_text, label_text};
ghost use Rattle.picture_text.specs.Texts.{managed_text, mark_text, marked_text, node_text, object_text, peer_text};
ghost use Rattle.picture_text.specs.Texts.{peers_text, sheet_text};

use crate::arrows::put_arrow;
use crate::changes::{Change, put_change};
use crate::pieces::{put, put_byte, put_named, put_quoted};
use crate::spots::{kind_word, sort_word};
use heap_pictures::{Arrow, ObjectNode, PeerNode};
use picture_sheets::Sheet;
use std::alloc::{AllocError, Global};

// A word.
fn put_word(word: &str, text: &mut Vec<u8>) -> Result<(), AllocError>
    ensures { OnOk result (text.new.items ≡ text.old.items ++ word.now) }
{
    put(word.as_bytes(), text)
}

// The label of a node.
fn put_label(letter: u8, n: u32, word: &str, text: &mut Vec<u8>) -> Result<(), AllocError>
    ensures { OnOk result (text.new.items ≡ text.old.items ++ label_text letter n word.now) }
{
    put(b" [label=\"", text)?;
    put_named(letter, n, text)?;
    put_byte(b' ', text)?;
    put_word(word, text)?;
    put_byte(b'"', text)?;
    Ok(())
}

// The line of a node.
fn put_node(
    change: Change,
    letter: u8,
    n: u32,
    word: &str,
    text: &mut Vec<u8>,
) -> Result<(), AllocError>
    ensures { OnOk result (text.new.items ≡ text.old.items ++ node_text change letter n word.now) }
{
    put(b"    ", text)?;
    put_named(letter, n, text)?;
    put_label(letter, n, word, text)?;
    put_change(change, text)?;
    put(b"];\n", text)?;
    Ok(())
}

// The line of a managed object.
fn put_object(change: Change, node: &ObjectNode, text: &mut Vec<u8>) -> Result<(), AllocError>
    ensures { OnOk result (text.new.items ≡ text.old.items ++ object_text change node.now) }
{
    put_node(change, b'm', node.m, kind_word(node.kind), text)
}

// The line of a peer.
fn put_peer(change: Change, node: &PeerNode, text: &mut Vec<u8>) -> Result<(), AllocError>
    ensures { OnOk result (text.new.items ≡ text.old.items ++ peer_text change node.now) }
{
    put_node(change, b'p', node.p, sort_word(node.sort), text)
}

fn put_objects(change: Change, nodes: &[ObjectNode], text: &mut Vec<u8>) -> Result<(), AllocError>
    ensures { OnOk result (text.new.items ≡ text.old.items ++ flat_map (object_text change) nodes.now) }
{
    for node in nodes {
        put_object(change, node, text)?;
    }
    Ok(())
}

fn put_peers(change: Change, nodes: &[PeerNode], text: &mut Vec<u8>) -> Result<(), AllocError>
    ensures { OnOk result (text.new.items ≡ text.old.items ++ flat_map (peer_text change) nodes.now) }
{
    for node in nodes {
        put_peer(change, node, text)?;
    }
    Ok(())
}

fn put_arrows(change: Change, arrows: &[Arrow], text: &mut Vec<u8>) -> Result<(), AllocError>
    ensures { OnOk result (text.new.items ≡ text.old.items ++ flat_map (arrow_text change) arrows.now) }
{
    for arrow in arrows {
        put_arrow(change, arrow, text)?;
    }
    Ok(())
}

// The line of an object that gets something.
fn put_mark(m: u32, mark: &[u8], text: &mut Vec<u8>) -> Result<(), AllocError>
    ensures { OnOk result (text.new.items ≡ text.old.items ++ mark_text mark.now m) }
{
    put(b"    ", text)?;
    put_named(b'm', m, text)?;
    put(mark, text)?;
    Ok(())
}

// The lines of objects that get something.
fn put_marked(objects: &[u32], mark: &[u8], text: &mut Vec<u8>) -> Result<(), AllocError>
    ensures { OnOk result (text.new.items ≡ text.old.items ++ marked_text mark.now objects.now) }
{
    for m in objects {
        put_mark(*m, mark, text)?;
    }
    Ok(())
}

// The frame of a dead part.
fn put_frame(dead: &[u32], text: &mut Vec<u8>) -> Result<(), AllocError>
    ensures { OnOk result (text.new.items ≡ text.old.items ++ frame_text dead.now) }
{
    put(
        b"    subgraph cluster_dead {\n    label=\"dead part\";\n    style=dashed;\n",
        text,
    )?;
    put_marked(dead, b";\n", text)?;
    put(b"    }\n", text)?;
    Ok(())
}

// The frame of the dead part, where there is one.
fn put_dead(dead: &[u32], text: &mut Vec<u8>) -> Result<(), AllocError>
    ensures { OnOk result (text.new.items ≡ text.old.items ++ dead_text dead.now) }
{
    if dead.is_empty() {
        return put(b"", text);
    }
    put_frame(dead, text)
}

// The lines of a sheet's managed objects.
fn put_sheet_objects(sheet: &Sheet, text: &mut Vec<u8>) -> Result<(), AllocError>
    ensures { OnOk result (text.new.items ≡ text.old.items ++ by_change object_text
        sheet.now.stay.objects sheet.now.came.objects sheet.now.went.objects) }
{
    put_objects(Change::Stays, sheet.stay().objects(), text)?;
    put_objects(Change::Came, sheet.came().objects(), text)?;
    put_objects(Change::Went, sheet.went().objects(), text)?;
    Ok(())
}

// Of its candidates.
fn put_sheet_candidates(sheet: &Sheet, text: &mut Vec<u8>) -> Result<(), AllocError>
    ensures { OnOk result (text.new.items ≡ text.old.items ++ marked_text
        (codes " [peripheries=2];\n") sheet.now.stay.candidates) }
{
    put_marked(sheet.stay().candidates(), b" [peripheries=2];\n", text)
}

// Of its dead part.
fn put_sheet_dead(sheet: &Sheet, text: &mut Vec<u8>) -> Result<(), AllocError>
    ensures { OnOk result (text.new.items ≡ text.old.items ++ dead_text sheet.now.stay.dead) }
{
    put_dead(sheet.stay().dead(), text)
}

// Of its peers.
fn put_sheet_peers(sheet: &Sheet, text: &mut Vec<u8>) -> Result<(), AllocError>
    ensures { OnOk result (text.new.items ≡ text.old.items ++ by_change
        peer_text sheet.now.stay.peers sheet.now.came.peers sheet.now.went.peers) }
{
    put_peers(Change::Stays, sheet.stay().peers(), text)?;
    put_peers(Change::Came, sheet.came().peers(), text)?;
    put_peers(Change::Went, sheet.went().peers(), text)?;
    Ok(())
}

// Of its arrows.
fn put_sheet_arrows(sheet: &Sheet, text: &mut Vec<u8>) -> Result<(), AllocError>
    ensures { OnOk result (text.new.items ≡ text.old.items ++ by_change arrow_text
        sheet.now.stay.arrows sheet.now.came.arrows sheet.now.went.arrows) }
{
    put_arrows(Change::Stays, sheet.stay().arrows(), text)?;
    put_arrows(Change::Came, sheet.came().arrows(), text)?;
    put_arrows(Change::Went, sheet.went().arrows(), text)?;
    Ok(())
}

// The frame of the managed heap.
fn put_managed(sheet: &Sheet, text: &mut Vec<u8>) -> Result<(), AllocError>
    ensures { OnOk result (text.new.items ≡ text.old.items ++ managed_text sheet.now) }
{
    put(
        b"  subgraph cluster_managed {\n    label=\"managed heap\";\n",
        text,
    )?;
    put_sheet_objects(sheet, text)?;
    put_sheet_candidates(sheet, text)?;
    put_sheet_dead(sheet, text)?;
    put(b"  }\n", text)?;
    Ok(())
}

// The frame of the peer heap.
fn put_peer_heap(sheet: &Sheet, text: &mut Vec<u8>) -> Result<(), AllocError>
    ensures { OnOk result (text.new.items ≡ text.old.items ++ peers_text sheet.now) }
{
    put(
        b"  subgraph cluster_peers {\n    label=\"peer heap\";\n",
        text,
    )?;
    put_sheet_peers(sheet, text)?;
    put(b"  }\n", text)?;
    Ok(())
}

// The first lines.
fn put_head(title: &[u8], text: &mut Vec<u8>) -> Result<(), AllocError>
    ensures { OnOk result (text.new.items ≡ text.old.items ++ head_text title.now) }
{
    put(b"digraph heaps {\n  label=\"", text)?;
    put_quoted(title, text)?;
    put(b"\";\n  labelloc=t;\n  rankdir=LR;\n", text)?;
    Ok(())
}

// All lines.
fn put_sheet(title: &[u8], sheet: &Sheet, text: &mut Vec<u8>) -> Result<(), AllocError>
    ensures { OnOk result (text.new.items ≡ text.old.items ++ sheet_text title.now sheet.now) }
{
    put_head(title, text)?;
    put_managed(sheet, text)?;
    put_peer_heap(sheet, text)?;
    put_sheet_arrows(sheet, text)?;
    put(b"}\n", text)?;
    Ok(())
}

/// The text of a sheet with that title. Answers `AllocError` where there is no memory.
pub fn dot_text(alloc: Global, title: &[u8], sheet: &Sheet) -> Result<Vec<u8>, AllocError>
    ensures { IfOk result (λ text. text.items ≡ sheet_text title.now sheet.now) }
{
    let mut text = Vec::new(alloc);
    put_sheet(title, sheet, &mut text)?;
    Ok(text)
}
