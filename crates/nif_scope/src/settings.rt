//! Where the members of a group are read.
use nif_schema::{Context, Schema};

/// What decides how a value is spelled: the versions and the order of its file, the block type of its block, which the
/// header and the footer don't have, and the numbers of blocks and of strings, below which references and text indexes
/// are.
#[derive(Debug, Drop, Clone, Copy, PartialEq, Eq)]
pub struct ValueContext {
    pub context: Context,
    pub owner: Option<u32>,
    pub blocks: u32,
    pub strings: u32,
}

/// Where the members of a group are read: the schema, the context, the declaration whose line has its fields, and its
/// template and argument.
#[derive(Drop, Clone, Copy)]
pub struct Setting<'a> {
    pub schema: &'a Schema,
    pub context: &'a ValueContext,
    pub number: u32,
    pub template: Option<u32>,
    pub arg: u64,
}
