use crate::plain::alive::alive_objects;
use melt_model::{Act, Entry, Slot, Value};
use melt_same::same;
use std::test::Fail;

const MAKE: Entry = Entry {
    thread: 0,
    act: Act::Make { refs: 1, nums: 0 },
};

fn write(slot: Slot, value: Value) -> Entry {
    Entry {
        thread: 0,
        act: Act::Write { slot, value },
    }
}

#[test]
fn what_registers_and_globals_lead_to_is_alive(rt: HostRuntime) -> Result<(), Fail> {
    let history = [
        MAKE,
        MAKE,
        MAKE,
        MAKE,
        MAKE,
        MAKE,
        MAKE,
        write(Slot::Field(0, 0), Value::Ref(1)),
        write(Slot::Field(2, 0), Value::Ref(3)),
        write(Slot::Global(0), Value::Ref(2)),
        write(Slot::Global(1), Value::Ref(4)),
        write(Slot::Global(1), Value::Nil),
        write(Slot::Field(5, 0), Value::Ref(6)),
        write(Slot::Field(6, 0), Value::Ref(5)),
    ];
    let mut registers = [Value::Nil; 16];
    registers[15] = Value::Ref(0);
    let objects = alive_objects(rt.alloc(), &history, &registers)?;
    for (object, want, why) in [
        (0, true, "in a register"),
        (1, true, "in a slot of an object in a register"),
        (2, true, "in a global"),
        (3, true, "in a slot of an object in a global"),
        (4, false, "overwritten"),
        (5, false, "in a cycle that nothing reaches"),
        (6, false, "in that cycle too"),
    ] {
        same((why, objects.contains(&object)), (why, want))?;
    }
    Ok(())
}

#[test]
fn each_object_of_a_cycle_is_alive_once(rt: HostRuntime) -> Result<(), Fail> {
    let history = [
        MAKE,
        MAKE,
        write(Slot::Field(0, 0), Value::Ref(1)),
        write(Slot::Field(1, 0), Value::Ref(0)),
    ];
    let alive = alive_objects(rt.alloc(), &history, &[Value::Ref(1); 16])?;
    same(alive.as_slice(), [1, 0].as_slice())?;
    let none = alive_objects(rt.alloc(), &history, &[Value::Nil; 16])?;
    same(none.is_empty(), true)?;
    Ok(())
}
