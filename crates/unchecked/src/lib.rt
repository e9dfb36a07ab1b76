#![tactic(auto)]

// The engine without checks 1 and 2, for tests/compare alone, which measures it and holds it beside the second engine. It is
// offered to nobody and stands in no header: words that are no sound session are not looked at, and may end the program.
ghost use Rattle.std.specs.Prelude.{◌≤◌, length};
ghost use Rattle.session.specs.Table.{read, words};
ghost use Rattle.rules.specs.Formula.{Holds};
ghost use Rattle.rules.specs.Sound.{sound};
ghost use Rattle.library.specs.Called.{CalledSound, operation};

use rules::Operation;

#[unsafe(no_mangle)]
pub extern "C" fn unchecked_apply(
    memory: &mut [u64],
    code: u64,
    f0: u64,
    f1: u64,
    f2: u64,
    f3: u64,
    f4: u64,
    made: &mut u64,
) -> u64
    requires { (words ≤ length memory.old) × Holds (sound (read memory.old)) }
    ensures { CalledSound memory.old memory.new (operation code f0 f1 f2 f3 f4) result made.new }
{
    let op = Operation {
        code,
        fields: [f0, f1, f2, f3, f4],
    };
    library::tell(engine::apply_sound(memory, op), made)
}
