//! Trees of git as trees of camp, and back: paths, modes and contents as paths and lines.
#![tactic(auto)]

mod attributes;
mod contents;
mod decoding;
mod lines;
mod modes;
mod paths;
mod pieces;
mod places;
mod trees;
mod wrapping;

pub use attributes::{
    Attribute, attribute_paths_are_free, attribute_paths_differ, encode_attribute_path, encode_path,
};
pub use contents::{EncodedContent, contents_come_back, decode_content, encode_content};
pub use decoding::{DecodedFile, decode_file};
pub use modes::{Mode, parse_mode};
pub use paths::{escape_path, escaped_paths_differ, unescape_path};
pub use trees::{EncodeFault, MAX_LINES, put_file, remove_file, trees_come_back};
