// The lines of arrows. A box or a point has its shape on a line before its arrow.

ghost use Rattle.std.specs.Prelude.{◌≡◌, ◌++◌, OnOk, codes};
ghost use Rattle.picture_text.specs.Texts.{arrow_text, change_text, drawn_text, field_looks, handle_looks, held_looks};
ghost use Rattle.picture_text.specs.Texts.{point_text, shape_text, style_text, way_text};

use crate::changes::{Change, put_change};
use crate::pieces::{put, put_byte, put_number};
use crate::spots::put_spot;
use heap_pictures::{Arrow, Spot, Style};
use std::alloc::AllocError;

// How an arrow of that style is drawn.
fn style_word(style: Style) -> &'static str
    ensures { result.now ≡ style_text style }
{
    match style {
        Style::Full => "",
        Style::Weak => ",style=dashed",
        Style::Cleared => ",color=gray,fontcolor=gray",
        Style::Gone => ",style=dotted,color=gray,fontcolor=gray",
    }
}

// The style's words.
fn put_style(style: Style, text: &mut Vec<u8>) -> Result<(), AllocError>
    ensures { OnOk result (text.new.items ≡ text.old.items ++ style_text style) }
{
    put(style_word(style).as_bytes(), text)
}

// From one spot to another.
fn put_way(from: Spot, to: Spot, text: &mut Vec<u8>) -> Result<(), AllocError>
    ensures { OnOk result (text.new.items ≡ text.old.items ++ way_text from to) }
{
    put(b"  ", text)?;
    put_spot(from, text)?;
    put(b" -> ", text)?;
    put_spot(to, text)?;
    Ok(())
}

// The line that gives a spot its shape.
fn put_shape(spot: Spot, shape: &[u8], text: &mut Vec<u8>) -> Result<(), AllocError>
    ensures { OnOk result (text.new.items ≡ text.old.items ++ shape_text spot shape.now) }
{
    put(b"  ", text)?;
    put_spot(spot, text)?;
    put(shape, text)?;
    Ok(())
}

// What stands before the looks of an arrow, and behind them.
fn put_begin(from: Spot, to: Spot, text: &mut Vec<u8>) -> Result<(), AllocError>
    ensures { OnOk result (text.new.items ≡ text.old.items ++ (way_text from to ++ codes " [")) }
{
    put_way(from, to, text)?;
    put(b" [", text)?;
    Ok(())
}

fn put_end(change: Change, text: &mut Vec<u8>) -> Result<(), AllocError>
    ensures { OnOk result (text.new.items ≡ text.old.items ++ (change_text change ++ codes "];\n")) }
{
    put_change(change, text)?;
    put(b"];\n", text)?;
    Ok(())
}

// How the arrow of a field looks.
fn put_field_looks(i: usize, text: &mut Vec<u8>) -> Result<(), AllocError>
    ensures { OnOk result (text.new.items ≡ text.old.items ++ field_looks i) }
{
    put(b"label=\"", text)?;
    put_number(i as u64, text)?;
    put_byte(b'"', text)?;
    Ok(())
}

// That of the handle of a managed object.
fn put_held_looks(h: u32, style: Style, text: &mut Vec<u8>) -> Result<(), AllocError>
    ensures { OnOk result (text.new.items ≡ text.old.items ++ held_looks h style) }
{
    put(b"dir=both,penwidth=2,label=\"h", text)?;
    put_number(h as u64, text)?;
    put_byte(b'"', text)?;
    put_style(style, text)?;
    Ok(())
}

// That of another handle.
fn put_handle_looks(style: Style, text: &mut Vec<u8>) -> Result<(), AllocError>
    ensures { OnOk result (text.new.items ≡ text.old.items ++ handle_looks style) }
{
    put(b"penwidth=2", text)?;
    put_style(style, text)?;
    Ok(())
}

// A field.
fn put_field(
    change: Change,
    from: Spot,
    i: usize,
    to: Spot,
    text: &mut Vec<u8>,
) -> Result<(), AllocError>
    ensures { OnOk result (text.new.items ≡ text.old.items ++ arrow_text change (Arrow.Field from i to)) }
{
    put_begin(from, to, text)?;
    put_field_looks(i, text)?;
    put_end(change, text)?;
    Ok(())
}

// The handle of a managed object.
fn put_held(
    change: Change,
    m: u32,
    h: u32,
    p: u32,
    style: Style,
    text: &mut Vec<u8>,
) -> Result<(), AllocError>
    ensures { OnOk result (text.new.items ≡ text.old.items ++ arrow_text change (Arrow.Held m h p style)) }
{
    put_begin(Spot::Object(m), Spot::Peer(p), text)?;
    put_held_looks(h, style, text)?;
    put_end(change, text)?;
    Ok(())
}

// The arrow of a handle, from or to its name.
fn put_handle(
    change: Change,
    from: Spot,
    to: Spot,
    style: Style,
    text: &mut Vec<u8>,
) -> Result<(), AllocError>
    ensures { OnOk result (text.new.items ≡ text.old.items ++ drawn_text change from to (handle_looks style)) }
{
    put_begin(from, to, text)?;
    put_handle_looks(style, text)?;
    put_end(change, text)?;
    Ok(())
}

// And one whose peer was freed.
fn put_faded(
    change: Change,
    m: u32,
    h: u32,
    style: Style,
    text: &mut Vec<u8>,
) -> Result<(), AllocError>
    ensures { OnOk result (text.new.items ≡ text.old.items ++ arrow_text change (Arrow.Faded m h style)) }
{
    put_shape(
        Spot::Handle(h),
        b" [shape=plaintext,fontcolor=gray];\n",
        text,
    )?;
    put_handle(change, Spot::Object(m), Spot::Handle(h), style, text)?;
    Ok(())
}

// An arrow that looks like those words.
fn put_plain(
    change: Change,
    from: Spot,
    to: Spot,
    looks: &[u8],
    text: &mut Vec<u8>,
) -> Result<(), AllocError>
    ensures { OnOk result (text.new.items ≡ text.old.items ++ drawn_text change from to looks.now) }
{
    put_begin(from, to, text)?;
    put(looks, text)?;
    put_end(change, text)?;
    Ok(())
}

// A slot.
fn put_names(change: Change, from: Spot, to: Spot, text: &mut Vec<u8>) -> Result<(), AllocError>
    ensures { OnOk result (text.new.items ≡ text.old.items ++ arrow_text change (Arrow.Names from to)) }
{
    put_shape(from, b" [shape=box];\n", text)?;
    put_plain(change, from, to, b"penwidth=1", text)?;
    Ok(())
}

// The box of a handle.
fn put_grips(
    change: Change,
    h: u32,
    p: u32,
    style: Style,
    text: &mut Vec<u8>,
) -> Result<(), AllocError>
    ensures { OnOk result (text.new.items ≡ text.old.items ++ arrow_text change (Arrow.Grips h p style)) }
{
    put_shape(Spot::Handle(h), b" [shape=box];\n", text)?;
    put_handle(change, Spot::Handle(h), Spot::Peer(p), style, text)?;
    Ok(())
}

// The box of a handle that leads to no peer any more.
fn put_lone(change: Change, h: u32, text: &mut Vec<u8>) -> Result<(), AllocError>
    ensures { OnOk result (text.new.items ≡ text.old.items ++ arrow_text change (Arrow.Stub h)) }
{
    put_shape(
        Spot::Handle(h),
        b" [shape=box,color=gray,fontcolor=gray",
        text,
    )?;
    put_end(change, text)?;
    Ok(())
}

// The line before an arrow to or from a temporary.
fn put_point(spot: Spot, text: &mut Vec<u8>) -> Result<(), AllocError>
    ensures { OnOk result (text.new.items ≡ text.old.items ++ point_text spot) }
{
    match spot {
        Spot::Temporary(_) => put_shape(spot, b" [shape=point,color=\"#0072b2\"];\n", text),
        _ => put(b"", text),
    }
}

// A reference that a cycle added.
fn put_refers(change: Change, from: Spot, to: Spot, text: &mut Vec<u8>) -> Result<(), AllocError>
    ensures { OnOk result (text.new.items ≡ text.old.items ++ arrow_text change (Arrow.Refers from to)) }
{
    put_point(from, text)?;
    put_point(to, text)?;
    put_plain(change, from, to, b"color=\"#0072b2\"", text)?;
    Ok(())
}

/// The lines of an arrow.
pub(crate) fn put_arrow(change: Change, arrow: &Arrow, text: &mut Vec<u8>) -> Result<(), AllocError>
    ensures { OnOk result (text.new.items ≡ text.old.items ++ arrow_text change arrow.now) }
{
    match *arrow {
        Arrow::Field { from, i, to } => put_field(change, from, i, to, text),
        Arrow::Held { m, h, p, style } => put_held(change, m, h, p, style, text),
        Arrow::Faded { m, h, style } => put_faded(change, m, h, style, text),
        Arrow::Names { from, to } => put_names(change, from, to, text),
        Arrow::Grips { h, p, style } => put_grips(change, h, p, style, text),
        Arrow::Stub { h } => put_lone(change, h, text),
        Arrow::Refers { from, to } => put_refers(change, from, to, text),
    }
}
