// The words of a line: its thread, and what it asks for.

ghost use Rattle.std.specs.Prelude.{◌+◌, ◌≤◌, [], ◌∷◌, codes, decimal, length};
ghost use Rattle.byte_streams.specs.Drafts.{AddsText, AddsWords};
ghost use Rattle.bridge_script.specs.Words.{thread_text, act_words, line_text, var_text, optional_text, kind_text};
ghost use Rattle.bridge_script.specs.Words.{sort_text, cell_text, global_text, own_static, peer_static};

use crate::names::{
    add_cell, add_global, add_kind, add_optional, add_own_static, add_peer_static, add_phase_word,
    add_sort, add_var,
};
use byte_streams::Line;
use joint_model::{Act, Cell, GName, Kind, Sort, StaticNo, Thread, Var};

/// Puts a word and a variable behind the line, each with a space before it.
pub fn add_with_var<const N: usize>(line: &mut Line, word: [u8; N], v: Var)
    requires { N + 3 ≤ line.old.room }
    ensures { AddsWords line.old line.new (word.entry ∷ var_text v ∷ []) (N + 3) }
{
    line.word(word);
    add_var(line, v);
}

// A word and two variables.
fn add_with_vars<const N: usize>(line: &mut Line, word: [u8; N], v: Var, w: Var)
    requires { N + 5 ≤ line.old.room }
    ensures { AddsWords line.old line.new (word.entry ∷ var_text v ∷ var_text w ∷ []) (N + 5) }
{
    line.word(word);
    add_var(line, v);
    add_var(line, w);
}

/// Puts a word and a number behind the line, each with a space before it.
pub fn add_with_number<const N: usize>(line: &mut Line, word: [u8; N], n: u64)
    requires { N + 22 ≤ line.old.room }
    ensures { AddsWords line.old line.new (word.entry ∷ decimal n ∷ []) (N + 22) }
{
    line.word(word);
    line.decimal(n);
}

// A word and a weak cell.
fn add_with_cell<const N: usize>(line: &mut Line, word: [u8; N], k: Cell)
    requires { N + 23 ≤ line.old.room }
    ensures { AddsWords line.old line.new (word.entry ∷ cell_text k ∷ []) (N + 23) }
{
    line.word(word);
    add_cell(line, k);
}

/// Puts a word, a variable and a static of the peer heap behind the line, each with a space before it.
pub fn add_pass<const N: usize>(line: &mut Line, word: [u8; N], v: Var, x: StaticNo)
    requires { N + 25 ≤ line.old.room }
    ensures { AddsWords line.old line.new (word.entry ∷ var_text v ∷ peer_static x ∷ []) (N + 25) }
{
    line.word(word);
    add_var(line, v);
    add_peer_static(line, x);
}

// A word, a global name and a variable.
fn add_with_global<const N: usize>(line: &mut Line, word: [u8; N], g: GName, v: Var)
    requires { N + 25 ≤ line.old.room }
    ensures { AddsWords line.old line.new (word.entry ∷ global_text g ∷ var_text v ∷ []) (N + 25) }
{
    line.word(word);
    add_global(line, g);
    add_var(line, v);
}

// `new V KIND N`.
fn add_new(line: &mut Line, v: Var, kind: Kind, fields: u8)
    requires { 50 ≤ line.old.room }
    ensures { AddsWords line.old line.new (codes "new" ∷ var_text v ∷ kind_text kind ∷ decimal fields ∷ []) 50 }
{
    line.word(*b"new");
    add_var(line, v);
    add_kind(line, kind);
    line.decimal(fields as u64);
}

// `bridge V KIND N SORT F`.
fn add_bridge(line: &mut Line, v: Var, kind: Kind, fields: u8, sort: Sort, peer_fields: u8)
    requires { 80 ≤ line.old.room }
    ensures { AddsWords line.old line.new
        (codes "bridge" ∷ var_text v ∷ kind_text kind ∷ decimal fields ∷ sort_text sort ∷ decimal peer_fields ∷ []) 80 }
{
    line.word(*b"bridge");
    add_var(line, v);
    add_kind(line, kind);
    line.decimal(fields as u64);
    add_sort(line, sort);
    line.decimal(peer_fields as u64);
}

// `set V I W|-`.
fn add_set(line: &mut Line, v: Var, i: u8, w: Option<Var>)
    requires { 50 ≤ line.old.room }
    ensures { AddsWords line.old line.new (codes "set" ∷ var_text v ∷ decimal i ∷ optional_text w ∷ []) 50 }
{
    line.word(*b"set");
    add_var(line, v);
    line.decimal(i as u64);
    add_optional(line, w);
}

// `get V W I`.
fn add_get(line: &mut Line, v: Var, w: Var, i: u8)
    requires { 50 ≤ line.old.room }
    ensures { AddsWords line.old line.new (codes "get" ∷ var_text v ∷ var_text w ∷ decimal i ∷ []) 50 }
{
    add_with_vars(line, *b"get", v, w);
    line.decimal(i as u64);
}

// `load V X`, where the static is one of the thread's own heap.
fn add_load(line: &mut Line, thread: Thread, v: Var, x: StaticNo)
    requires { 50 ≤ line.old.room }
    ensures { AddsWords line.old line.new (codes "load" ∷ var_text v ∷ own_static thread x ∷ []) 50 }
{
    add_with_var(line, *b"load", v);
    add_own_static(line, thread, x);
}

// `store X V|-`, where the static is one of the thread's own heap.
fn add_store(line: &mut Line, thread: Thread, x: StaticNo, v: Option<Var>)
    requires { 50 ≤ line.old.room }
    ensures { AddsWords line.old line.new (codes "store" ∷ own_static thread x ∷ optional_text v ∷ []) 50 }
{
    line.word(*b"store");
    add_own_static(line, thread, x);
    add_optional(line, v);
}

// `weak K V`.
fn add_weak(line: &mut Line, k: Cell, v: Var)
    requires { 50 ≤ line.old.room }
    ensures { AddsWords line.old line.new (codes "weak" ∷ cell_text k ∷ var_text v ∷ []) 50 }
{
    add_with_cell(line, *b"weak", k);
    add_var(line, v);
}

// `new V N` of a peer thread.
fn add_new_peer(line: &mut Line, v: Var, fields: u8)
    requires { 50 ≤ line.old.room }
    ensures { AddsWords line.old line.new (codes "new" ∷ var_text v ∷ decimal fields ∷ []) 50 }
{
    add_with_var(line, *b"new", v);
    line.decimal(fields as u64);
}

// `unglobal G`.
fn add_unglobal(line: &mut Line, g: GName)
    requires { 50 ≤ line.old.room }
    ensures { AddsWords line.old line.new (codes "unglobal" ∷ global_text g ∷ []) 50 }
{
    line.word(*b"unglobal");
    add_global(line, g);
}

// `wread V G`.
fn add_wread(line: &mut Line, v: Var, g: GName)
    requires { 50 ≤ line.old.room }
    ensures { AddsWords line.old line.new (codes "wread" ∷ var_text v ∷ global_text g ∷ []) 50 }
{
    add_with_var(line, *b"wread", v);
    add_global(line, g);
}

/// Puts what a line of the thread asks for behind the line: the words behind its thread, each with a space before it.
pub fn add_act(line: &mut Line, thread: Thread, act: &Act)
    requires { 100 ≤ line.old.room }
    ensures { AddsWords line.old line.new (act_words thread act.now) 100 }
{
    match *act {
        Act::New { v, kind, fields } => add_new(line, v, kind, fields),
        Act::Bridge {
            v,
            kind,
            fields,
            sort,
            peer_fields,
        } => add_bridge(line, v, kind, fields, sort, peer_fields),
        Act::Copy { v, w } => add_with_vars(line, *b"copy", v, w),
        Act::Set { v, i, w } => add_set(line, v, i, w),
        Act::Get { v, w, i } => add_get(line, v, w, i),
        Act::Drop { v } => add_with_var(line, *b"drop", v),
        Act::Load { v, x } => add_load(line, thread, v, x),
        Act::Store { x, v } => add_store(line, thread, x, v),
        Act::Weak { k, v } => add_weak(line, k, v),
        Act::Read { k } => add_with_cell(line, *b"read", k),
        Act::Await { k } => add_with_cell(line, *b"wait", k),
        Act::Take { v } => add_with_var(line, *b"take", v),
        Act::Pass { v, x } => add_pass(line, *b"pass", v, x),
        Act::Surface { v, x } => add_pass(line, *b"surface", v, x),
        Act::Dispose { v } => add_with_var(line, *b"dispose", v),
        Act::Handle { v } => add_with_var(line, *b"handle", v),
        Act::NewPeer { v, fields } => add_new_peer(line, v, fields),
        Act::Global { g, v } => add_with_global(line, *b"global", g, v),
        Act::WGlobal { g, v } => add_with_global(line, *b"wglobal", g, v),
        Act::UnGlobal { g } => add_unglobal(line, g),
        Act::WRead { v, g } => add_wread(line, v, g),
        Act::Collect => line.word(*b"collect"),
        Act::BeginMark => line.word(*b"begin"),
        Act::Slice { n } => add_with_number(line, *b"slice", n as u64),
        Act::SweepMark => line.word(*b"sweep"),
        Act::PhaseLine { word } => add_phase_word(line, word),
        Act::Finalise { n } => add_with_number(line, *b"finalise", n as u64),
    }
}

// A thread.
fn add_thread(line: &mut Line, thread: Thread)
    requires { 21 ≤ line.old.room }
    ensures { AddsText line.old line.new (thread_text thread) 21 }
{
    match thread {
        Thread::M(n) => {
            line.text(b"m");
            line.number(n as u64);
        }
        Thread::P(n) => {
            line.text(b"p");
            line.number(n as u64);
        }
        Thread::C => line.text(b"c"),
    }
}

/// A line of a script, without its newline.
pub fn add_line(line: &mut Line, thread: Thread, act: &Act)
    requires { 121 ≤ line.old.room }
    ensures { AddsText line.old line.new (line_text (thread, act.now)) 121 }
{
    add_thread(line, thread);
    add_act(line, thread, act);
}
