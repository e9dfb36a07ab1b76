// What the passes over a session are given.
ghost use Rattle.session.specs.Table.{read};
ghost use Rattle.sound.specs.RulesInOrder.{Counted};

use session::Memory;

// A session's memory with its counts of objects and links, which are in range.
#[derive(Clone, Copy)]
pub struct View<'a> {
    pub s: &'a Memory,
    pub objects: u64,
    pub links: u64,
    ghost counted: { Counted (read s.now) objects links },
}
