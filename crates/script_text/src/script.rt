use crate::command_list::CommandList;
use store_text::ObjectLine;

/// The objects of a store, the most events of its history, and the commands that it is asked in turn.
#[derive(Drop)]
pub struct Script {
    /// How many objects the text says that it may have; `None` where it doesn't say it, and may have 256.
    pub size: Option<u32>,
    pub max: u32,
    pub objects: Vec<ObjectLine>,
    pub commands: CommandList,
}
