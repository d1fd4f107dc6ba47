// What is broken, by an axiom's line or a clause's number, and how many elements are shown. They stand in scratch from word SHOWN on.
#[derive(Clone, Copy)]
pub struct Broken {
    pub at: u32,
    pub shown: u32,
}
