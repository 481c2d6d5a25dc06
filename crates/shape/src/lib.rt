// What a shape is, and the largest one. Its sizes, and the numbers and the internal order of its nodes, stand in specs/.
#![tactic(auto)]

// The largest height and distance. The arrays of a window and the buffers of a round are made for a shape of both.
pub const MAX_HEIGHT: usize = 15;

pub const MAX_DISTANCE: usize = 15;

// Its sheets, the nodes of one and of all, the detectors of a sheet and the edges of a layer.
const MAX_SHEETS: usize = 2 * (MAX_DISTANCE / 2) + 1;

pub const MAX_SHEET_NODES: usize = MAX_HEIGHT * (MAX_DISTANCE + 1);

pub const MAX_NODES: usize = MAX_SHEET_NODES * MAX_SHEETS;

pub const MAX_DETECTORS: usize = MAX_HEIGHT * (MAX_DISTANCE - 1);

pub const MAX_LAYER_EDGES: usize = MAX_HEIGHT * MAX_DISTANCE
    + (MAX_HEIGHT - 1) * (MAX_DISTANCE - 1)
    + MAX_DETECTORS
    + (MAX_HEIGHT - 1) * (MAX_DISTANCE - 1)
    + MAX_HEIGHT * (MAX_DISTANCE - 2)
    + (MAX_HEIGHT - 1) * (MAX_DISTANCE - 2);

// The noise model is 0, or 1 for circuit-level noise with its diagonals.
#[derive(Clone, Copy)]
pub struct Shape {
    pub height: u8,
    pub distance: u8,
    pub model: u8,
}

// A node's place: depth 0 is the top sheet, columns 0 and the distance are boundary.
#[derive(Clone, Copy)]
pub struct Place {
    pub depth: u8,
    pub row: u8,
    pub column: u8,
}
