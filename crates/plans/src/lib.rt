// What plans on one canvas are: a placement, definitions and laws only, no code.
#![tactic(auto)]

// A rectangle of the frame, where its top left corner goes on the canvas (right and down count up), and the counts that its entry receives.
#[derive(Clone, Copy, PartialEq)]
pub struct Placement {
    pub left: usize,
    pub top: usize,
    pub across: usize,
    pub down: usize,
    pub x: i16,
    pub y: i16,
    pub on: usize,
    pub cut: usize,
}
