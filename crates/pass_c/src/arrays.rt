// What a call tells about its arrays.

/// How many components, components without members, members of components and cross-references there are.
#[repr(C)]
#[derive(Clone, Copy)]
pub struct PassCounts {
    pub comps: u32,
    pub heavy: u32,
    pub members: u32,
    pub xrefs: u32,
}
