// The edges of a layer by their numbers: what an edge is; its numbering stands in specs/.
#![tactic(auto)]

// An edge of a layer: 0 along a row, 1 between rows, else to the sheet above; with the place of its west, north or lower end.
// stays: the kind is a number, as the definitions under the theorems read it (`edge_number0`, `edge_of0` in specs/Layer.antt).
#[derive(Clone, Copy)]
pub struct Edge {
    pub kind: u8,
    pub row: u8,
    pub column: u8,
}
