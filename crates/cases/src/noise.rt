// Noise: what the buffers hold before a call. It is a function of a seed and a place, so that it is computed anew where the buffers
// are looked at afterwards. No word of it is 0, and at one seed the words of 65,535 places are all different.

// The length of a buffer, longer than what any record borrows.
pub const SIZE: usize = 65536;

pub fn noise(seed: u32, i: usize) -> u16 {
    let x = (i % 65535) * 28111 + seed as usize;
    (x % 65535 + 1) as u16
}

// A byte of noise. It is not below 128, as most bytes of tables are.
pub fn noise_byte(seed: u32, i: usize) -> u8 {
    (noise(seed, i) % 128 + 128) as u8
}
