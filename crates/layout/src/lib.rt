// The index header, as the kernel holds it. What buffers and a header hold is defined in specs/.
#![tactic(auto)]

pub mod lent;

#[repr(C)]
#[derive(Debug, Clone, Copy, PartialEq, Eq)]
pub struct Header {
    pub fanout: usize,
    pub leaves: usize,
    pub pairs: usize,
    pub charge: usize,
}
