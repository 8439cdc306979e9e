// The frames that a maker lends to the entries that may halt.
// Document 01, "Places and their forms": "a lent slice of frames (term offset, goals start, count, stage), pushed and popped by few functions".
#![tactic(auto)]

ghost use Rattle.std.specs.Prelude.{◌≡◌, ◌+◌, ◌<◌, length, set, get_or, replicate};
ghost use Rattle.lent_frames.specs.Frames.{no_frame};

// A waiting term: the file and the place of its last inner term as one number, where its own goals begin, how many they are, and its stage.
#[repr(C)]
#[derive(Clone, Copy)]
pub struct LentFrame {
    pub term: u32,
    pub goals: u32,
    pub count: u16,
    pub stage: u16,
}

// The frames are lent and have a length beside them, since the engine has no heap.
// Puts a frame at a place, and says the next place.
pub fn push(frames: &mut [LentFrame], n: usize, f: LentFrame) -> usize
    requires { n < length frames.old }
    ensures { (result ≡ n + 1) × (frames.new ≡ set frames.old n f) }
{
    frames[n] = f;
    n + 1
}

// The frame at a place.
pub fn pop(frames: &[LentFrame], n: usize) -> LentFrame
    requires { n < length frames.now }
    ensures { result ≡ get_or frames.now n no_frame }
{
    frames[n]
}

// Sets every number of every frame to 0.
pub fn clear_frames(frames: &mut [LentFrame])
    ensures { frames.new ≡ replicate (length frames.old) no_frame }
{
    frames.fill(LentFrame {
        term: 0,
        goals: 0,
        count: 0,
        stage: 0,
    });
}
