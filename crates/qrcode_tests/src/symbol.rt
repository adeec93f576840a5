//! Tests of types, error correction, the correction of blocks, penalties, and the canvas.

mod canvas;
mod squares;
mod values;
