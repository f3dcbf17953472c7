// What differs from rig to rig: the margin of M2 in metres, and the bytes that a slot carries.
#[derive(Clone, Copy)]
pub struct Settings {
    pub margin: u32,
    pub carries: u32,
}
