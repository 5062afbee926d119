// Nodes come out of the queues by their keys, and out of `LabelQueue` by their numbers at equal keys.
ghost use Rattle.std.specs.Prelude.{◌≡◌, ◌≤◌, ◌<◌, ◌+◌, ◌-◌, ◌^◌, length, OnOk};

use super::engines::random_nets::Random;
use label_queue::{BucketQueue, LabelQueue};
use route_base::{NodeId, OutOfMemory};
use std::alloc::Global;
use std::test::Fail;

const SEED: u64 = 1969;

const TURNS: u64 = 10_000;

const NODES: u32 = 30;

const SPAN: usize = 20;

// Whether node 2 has the key 4 and node 4 none, and the queue gives node 2, then node 1 with the key 9, and then nothing.
fn gives_two(queue: &mut LabelQueue) -> bool {
    queue.key_of(NodeId(2)) == Some(4)
        && queue.key_of(NodeId(4)).is_none()
        && queue.take_least() == Some((NodeId(2), 4))
        && queue.take_least() == Some((NodeId(1), 9))
        && queue.take_least().is_none()
}

#[test]
fn takes_the_least_key_first(rt: HostRuntime) -> Result<(), Fail> {
    let mut queue = LabelQueue::new(rt.alloc(), 3)?;
    queue.put(NodeId(2), 9);
    queue.put(NodeId(1), 9);
    queue.lower(NodeId(2), 4);
    assert!(rt; gives_two(&mut queue));
    Ok(())
}

// Whether the queue gives a node for each key from 1 to 40, and then nothing.
fn gives_by_keys(queue: &mut LabelQueue) -> bool {
    for key in 1..41u32 {
        if queue.take_least() != Some((NodeId(key * 10 % 41), key as u64)) {
            return false;
        }
    }
    queue.take_least().is_none()
}

#[test]
fn takes_many_nodes_in_order(rt: HostRuntime) -> Result<(), Fail> {
    let mut queue = LabelQueue::new(rt.alloc(), 40)?;
    for v in 1..41u32 {
        set_key(&mut queue, NodeId(v), 100);
        // 37 times 10 is 1 more than 9 times 41
        set_key(&mut queue, NodeId(v), (v * 37 % 41) as u64);
    }
    assert!(rt; gives_by_keys(&mut queue));
    Ok(())
}

// Whether the queue gives the nodes from 1 to 40 in this order, each with the key 7.
fn gives_in_order(queue: &mut LabelQueue) -> bool
    ensures { length queue.new ≡ length queue.old }
{
    for v in 1..41u32 {
        if queue.take_least() != Some((NodeId(v), 7)) {
            return false;
        }
    }
    true
}

// Whether the queue gives node 5 again, once it has a key.
fn gives_again(queue: &mut LabelQueue) -> bool
    requires { 5 ≤ length queue.old }
{
    set_key(queue, NodeId(5), 8);
    queue.take_least() == Some((NodeId(5), 8))
}

// Whether a queue of no nodes gives nothing.
fn gives_nothing(alloc: Global) -> Result<bool, OutOfMemory> {
    Ok(LabelQueue::new(alloc, 0)?.take_least().is_none())
}

#[test]
fn takes_nodes_of_equal_keys_in_order(rt: HostRuntime) -> Result<(), Fail> {
    let mut queue = LabelQueue::new(rt.alloc(), 40)?;
    for v in 1..41u32 {
        set_key(&mut queue, NodeId(41 - v), 7);
    }
    assert!(rt; gives_in_order(&mut queue) && gives_again(&mut queue));
    assert!(rt; gives_nothing(rt.alloc()) == Ok(true));
    Ok(())
}

// Gives a node a key, if it has none or a larger one.
fn set_key(queue: &mut LabelQueue, v: NodeId, key: u64)
    requires low { 1 ≤ v.0 }
    requires high { v.0 ≤ length queue.old }
    ensures { length queue.new ≡ length queue.old }
{
    match queue.key_of(v) {
        None => queue.put(v, key),
        Some(before) => {
            if key <= before {
                queue.lower(v, key);
            }
        }
    }
}

#[test]
fn takes_rising_keys_as_a_plain_list_does(rt: HostRuntime) -> Result<(), Fail> {
    let mut random = Random { state: SEED };
    let mut queue = BucketQueue::new(rt.alloc(), NODES, SPAN)?;
    let mut plain = vec![in rt.alloc(); None; NODES as usize]?;
    let mut floor = 0;
    for _ in 0..TURNS {
        if random.below(2) == 0 {
            let taken = take_both(&mut queue, &mut plain, floor);
            assert!(rt; taken.0);
            floor = taken.1;
        } else if floor < 1_000_000 {
            let v = NodeId(1 + random.below(NODES as u64) as u32);
            let key = floor + random.below(SPAN as u64);
            assert_eq!(rt; queue.key_of(v), plain[v.0 as usize - 1]);
            lower_both(&mut queue, &mut plain, v, key)?;
        }
    }
    assert!(rt; 1_000 < floor);
    Ok(())
}

// Gives a node a key in the queue and in the list, if it has none or a larger one.
fn lower_both(
    queue: &mut BucketQueue,
    plain: &mut Vec<Option<u64>>,
    v: NodeId,
    key: u64,
) -> Result<(), OutOfMemory>
    requires low { 1 ≤ v.0 }
    requires high { v.0 ≤ NODES }
    requires room { length queue.old.keys ≡ NODES }
    requires places { length plain.old.items ≡ NODES }
    requires floor { queue.old.floor ≤ key }
    requires span { key < queue.old.floor + queue.old.span }
    requires real { key < 2 ^ 64 - 1 }
    ensures room { OnOk result (length queue.new.keys ≡ NODES) }
    ensures places { length plain.new.items ≡ NODES }
    ensures floor { queue.new.floor ≡ queue.old.floor }
    ensures span { queue.new.span ≡ queue.old.span }
{
    match queue.key_of(v) {
        None => queue.put(v, key)?,
        Some(before) => {
            if before < key {
                return Ok(());
            }
            queue.lower(v, key)?;
        }
    }
    plain[v.0 as usize - 1] = Some(key);
    Ok(())
}

// Takes a node out of both; whether it was one with the least key of the list, and the floor.
fn take_both(queue: &mut BucketQueue, plain: &mut Vec<Option<u64>>, floor: u64) -> (bool, u64)
    requires room { length queue.old.keys ≡ NODES }
    requires places { length plain.old.items ≡ NODES }
    requires floor { queue.old.floor ≡ floor }
    ensures room { length queue.new.keys ≡ NODES }
    ensures places { length plain.new.items ≡ NODES }
    ensures floor { queue.new.floor ≡ result.1 }
    ensures span { queue.new.span ≡ queue.old.span }
{
    let Some((v, key)) = queue.take_least() else {
        return (plain.iter().all(|it| it.is_none()), floor);
    };
    let place = v.0 as usize - 1;
    let is_least = plain[place] == Some(key) && plain.iter().all(|it| key <= it.unwrap_or(key));
    plain[place] = None;
    (is_least, key)
}
