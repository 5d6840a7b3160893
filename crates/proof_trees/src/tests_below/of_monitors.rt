ghost use Rattle.std.specs.Prelude.{◌≡◌, ◌<◌, OnOk, Contains};

use monitors::{LinkMonitor, MeetMonitor};
use names::{Entity, NameFault};
use std::alloc::{AllocError, Global};
use std::test::Fail;

/// Tells it again where memory is refused, so that a test sees that the refusal changed nothing.
fn tell_base(monitor: &mut LinkMonitor, base: Entity) -> Result<bool, AllocError>
    ensures { OnOk result (Contains monitor.new.bases base) }
{
    match monitor.base_told(base) {
        Ok(is_new) => Ok(is_new),
        Err(_) => monitor.base_told(base),
    }
}

fn tell_via(monitor: &mut LinkMonitor, base: Entity, who: Entity) -> Result<bool, AllocError>
    requires { Contains monitor.old.bases base }
{
    match monitor.via_told(base, who) {
        Ok(is_new) => Ok(is_new),
        Err(_) => monitor.via_told(base, who),
    }
}

fn tell_part(monitor: &mut MeetMonitor, part: u8, who: Entity) -> Result<bool, AllocError>
    requires { part < monitor.old.parts }
    ensures { monitor.new.parts ≡ monitor.old.parts }
{
    match monitor.part_told(part, who) {
        Ok(is_last) => Ok(is_last),
        Err(_) => monitor.part_told(part, who),
    }
}

/// Whether the base is heard as new where it is to, and then `D` by way of it.
fn hears(
    monitor: &mut LinkMonitor,
    base: Entity,
    new_base: bool,
    new_member: bool,
) -> Result<bool, Fail> {
    Ok(
        tell_base(monitor, base)? == new_base
            && tell_via(monitor, base, Entity::read(b"D")?)? == new_member,
    )
}

fn hears_once(monitor: &mut LinkMonitor, b: Entity, c: Entity) -> Result<bool, Fail> {
    Ok(tell_base(monitor, b)? && hears(monitor, b, false, true)? && hears(monitor, c, true, false)?)
}

/// Whether each part that is told of an entity completes it where it is to: part, entity and whether.
fn hears_parts(
    monitor: &mut MeetMonitor,
    parts: u8,
    told: &[(u8, &[u8], bool)],
) -> Result<bool, Fail>
    requires { monitor.old.parts ≡ parts }
{
    for (part, name, is_last) in told {
        if *part >= parts || tell_part(monitor, *part, Entity::read(name)?)? != *is_last {
            return Ok(false);
        }
    }
    Ok(true)
}

static TWO_PARTS: [(u8, &[u8], bool); 4] = [
    (0, b"D", false),
    (0, b"D", false),
    (1, b"D", true),
    (1, b"D", false),
];

/// Each entity needs every part.
static THREE_PARTS: [(u8, &[u8], bool); 6] = [
    (2, b"D", false),
    (0, b"E", false),
    (1, b"E", false),
    (0, b"D", false),
    (2, b"E", true),
    (1, b"D", true),
];

/// Tells a base after these. Whether the base is new, and a refused telling left these told and the base untold.
fn hears_new_base(
    monitor: &mut LinkMonitor,
    earlier: &[Entity],
    base: Entity,
) -> Result<bool, AllocError> {
    if let Ok(is_new) = monitor.base_told(base) {
        return Ok(is_new);
    }
    for known in earlier {
        if monitor.base_told(*known)? {
            return Ok(false);
        }
    }
    monitor.base_told(base)
}

/// Tells an entity by way of this base, after these. Whether it is new, and a refused telling left these told and it untold.
fn hears_new_member(
    monitor: &mut LinkMonitor,
    earlier: &[Entity],
    base: Entity,
    who: Entity,
) -> Result<bool, AllocError>
    requires { Contains monitor.old.bases base }
{
    if let Ok(is_new) = monitor.via_told(base, who) {
        return Ok(is_new);
    }
    for known in earlier {
        if monitor.base_told(base)? || monitor.via_told(base, *known)? {
            return Ok(false);
        }
    }
    Ok(!monitor.base_told(base)? && monitor.via_told(base, who)?)
}

/// Lets the first of two parts tell an entity after these, all of them again where that is refused. Whether none completes.
fn hears_first_part(
    monitor: &mut MeetMonitor,
    earlier: &[Entity],
    who: Entity,
) -> Result<bool, AllocError>
    requires { monitor.old.parts ≡ 2 }
    ensures { monitor.new.parts ≡ 2 }
{
    if let Ok(is_last) = monitor.part_told(0, who) {
        return Ok(!is_last);
    }
    for known in earlier {
        if monitor.part_told(0, *known)? {
            return Ok(false);
        }
    }
    Ok(!monitor.part_told(0, who)?)
}

/// Tells each of the entities as a base, and by way of itself. The place of the first that isn't heard as new.
fn first_unheard(
    monitor: &mut LinkMonitor,
    entities: &[Entity],
) -> Result<Option<usize>, AllocError> {
    for (place, who) in entities.iter().enumerate() {
        let earlier = &entities[..place];
        if !hears_new_base(monitor, earlier, *who)? || monitor.base_told(*who)? {
            return Ok(Some(place));
        }
        if !hears_new_member(monitor, earlier, *who, *who)? {
            return Ok(Some(place));
        }
    }
    Ok(None)
}

/// Tells each of the entities by the first of two parts. The place of the first that completes by it.
fn first_complete(
    monitor: &mut MeetMonitor,
    entities: &[Entity],
) -> Result<Option<usize>, AllocError>
    requires { monitor.old.parts ≡ 2 }
    ensures { monitor.new.parts ≡ 2 }
{
    for (place, who) in entities.iter().enumerate() {
        if !hears_first_part(monitor, &entities[..place], *who)? {
            return Ok(Some(place));
        }
    }
    Ok(None)
}

/// Tells each of the entities by the second of two parts. The place of the first that doesn't complete by it, once.
fn first_incomplete(
    monitor: &mut MeetMonitor,
    entities: &[Entity],
) -> Result<Option<usize>, AllocError>
    requires { monitor.old.parts ≡ 2 }
{
    for (place, who) in entities.iter().enumerate() {
        if !monitor.part_told(1, *who)? || monitor.part_told(1, *who)? {
            return Ok(Some(place));
        }
    }
    Ok(None)
}

/// Nine entities, from `B` on.
fn nine() -> Result<[Entity; 9], NameFault> {
    let mut entities = [Entity::read(b"B")?; 9];
    for place in 1..9usize {
        entities[place] = Entity::read(&[b'B' + place as u8])?;
    }
    Ok(entities)
}

/// Whether a linked role hears each member once; and a refused telling changes nothing.
fn links_hear(alloc: Global, entities: &[Entity; 9]) -> Result<bool, Fail> {
    let is_once = hears_once(&mut LinkMonitor::new(alloc), entities[0], entities[1])?;
    Ok(is_once && first_unheard(&mut LinkMonitor::new(alloc), entities)?.is_none())
}

/// Whether an intersection of two parts, and one of three, hear their last part once.
fn meets_hear_parts(alloc: Global) -> Result<bool, Fail> {
    Ok(
        hears_parts(&mut MeetMonitor::make(alloc, 2), 2, &TWO_PARTS)?
            && hears_parts(&mut MeetMonitor::make(alloc, 3), 3, &THREE_PARTS)?,
    )
}

/// Whether an intersection of two parts hears the last of each entity once; and a refused telling changes nothing.
fn meets_hear_entities(alloc: Global, entities: &[Entity; 9]) -> Result<bool, AllocError> {
    let mut monitor = MeetMonitor::make(alloc, 2);
    Ok(
        first_complete(&mut monitor, entities)?.is_none()
            && first_incomplete(&mut monitor, entities)?.is_none(),
    )
}

#[test]
fn monitors_hear_each_once(rt: HostRuntime) -> Result<(), Fail> {
    let entities = nine()?;
    assert!(rt; links_hear(rt.alloc(), &entities)?);
    assert!(rt; meets_hear_parts(rt.alloc())?);
    assert!(rt; meets_hear_entities(rt.alloc(), &entities)?);
    Ok(())
}
