// The buffers that a session keeps from one line to the next.
use super::console::Console;
use memory::config::Config;

// What the loader is lent, with room for the largest text and id.
#[derive(Drop)]
pub struct Memory {
    pub text: [u8; Console::TEXT_MAX],
    pub arena: [u8; Config::ARENA_SIZE],
    pub undo: [u8; Config::UNDO_SIZE],
    pub ids: [u8; Config::IDS_SIZE],
    pub id: [u8; Console::LINE_MAX],
}

// What an upload gathers.
#[derive(Drop)]
pub struct Gathered {
    pub name: [u8; Console::NAME_ROOM],
    pub list: [u8; Console::LINE_MAX],
    pub file: [u8; Console::FILE_ROOM],
}
