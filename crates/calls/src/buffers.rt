// The buffers that travel together through a reading, as `runs/specs/Lent.antt` gathers them. Where C calls, they are lent one by one.

// Where a reading puts the transfer frames.
#[derive(Drop)]
pub struct FramesMut<'a> {
    pub p1: &'a mut [u8],
    pub pids: &'a mut [u8],
    pub p2: &'a mut [u8],
    pub p3: &'a mut [u8],
    pub p4: &'a mut [u8],
}

// The matrices and the control sequences of an L1 frame that a reading is handed.
#[derive(Clone, Copy)]
pub struct Signal<'a> {
    pub pm: &'a [u8],
    pub px1: &'a [u8],
    pub px2: &'a [u8],
    pub control: &'a [u8],
}

// The memory of a side: for P3, for P4, and the scrambled P1 frames that wait.
#[derive(Clone, Copy)]
pub struct Memory<'a> {
    pub for3: &'a [u8],
    pub for4: &'a [u8],
    pub delayed: &'a [u8],
}

// The same, to be written.
#[derive(Drop)]
pub struct MemoryMut<'a> {
    pub for3: &'a mut [u8],
    pub for4: &'a mut [u8],
    pub delayed: &'a mut [u8],
}
