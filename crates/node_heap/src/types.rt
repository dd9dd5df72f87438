//! The limits, frame heads and errors of a heap.
use run_types::Serves;

/// The limits of a heap. `node` is the number of its node. `objects` and `frames` are the largest numbers of objects
/// and of frames of all objects. `vars` is the largest number of variables of an object.
#[derive(Clone, Copy)]
pub struct HeapLimits {
    pub node: u32,
    pub objects: u32,
    pub frames: u32,
    pub vars: u32,
}

/// The head of an active frame. `method` is the index of the method in its class, or None for a body. `temps` counts
/// its parameters and locals. `serves` says who receives its value.
#[derive(Clone, Copy)]
pub struct FrameHead {
    pub method: Option<u32>,
    pub temps: u32,
    pub serves: Serves,
}

/// The limit that an operation would exceed.
#[derive(Clone, Copy)]
pub enum HeapFull {
    Objects,
    Frames,
}
