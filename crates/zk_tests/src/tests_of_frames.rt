// The frames of a small story.

use crate::tests_same::same;
use std::test::Fail;
use zk_mem::fault::Fault;
use zk_state::frames::Frames;
use zk_state::refusal::{Limit, Refusal};

#[test]
fn words_go_up_to_the_bound(rt: HostRuntime) -> Result<(), Fail> {
    let mut frames = Frames::new(rt.alloc(), 1, 3)?;
    same(&rt, frames.pop(), Err(Fault::StackEmpty));
    same(&rt, frames.top(), Err(Fault::StackEmpty));
    same(&rt, frames.set_top(5), Err(Fault::StackEmpty));
    for word in [10, 0, 65535] {
        same(&rt, (word, frames.push(word)), (word, Ok(())));
    }
    same(&rt, frames.push(40), Err(Refusal::Limit(Limit::Words)));
    same(&rt, frames.words(), 3);
    same(&rt, frames.top(), Ok(65535));
    same(&rt, frames.set_top(31), Ok(()));
    for word in [31, 0, 10] {
        same(&rt, frames.pop(), Ok(word));
    }
    same(&rt, frames.pop(), Err(Fault::StackEmpty));
    same(&rt, frames.words(), 0);
    Ok(())
}

#[test]
fn frames_go_up_to_the_bound(rt: HostRuntime) -> Result<(), Fail> {
    let mut frames = Frames::new(rt.alloc(), 3, 4)?;
    same(&rt, frames.most_frames(), 3);
    same(&rt, frames.most_words(), 4);
    same(&rt, frames.depth(), 0);
    same(&rt, frames.supplied(), 0);
    same(&rt, frames.leave(), Err(Fault::ReturnFromMain));
    same(&rt, frames.call(&[1, 2, 3], 66, 0, Some(0), 1), Ok(()));
    same(
        &rt,
        frames.call(&[4, 5], 66, 0, None, 0),
        Err(Refusal::Limit(Limit::Words)),
    );
    same(&rt, frames.call(&[4], 70, 0, None, 0), Ok(()));
    same(
        &rt,
        frames.call(&[5], 74, 0, None, 0),
        Err(Refusal::Limit(Limit::Frames)),
    );
    same(&rt, frames.depth(), 2);
    same(&rt, frames.words(), 4);
    same(&rt, frames.local(1), Ok(4));
    Ok(())
}

#[test]
fn a_copy_is_put_back(rt: HostRuntime) -> Result<(), Fail> {
    let mut frames = Frames::new(rt.alloc(), 3, 6)?;
    same(&rt, frames.push(7), Ok(()));
    let copy = frames.copy(rt.alloc())?;
    frames.restart();
    if frames.can_hold(&copy) {
        frames.put_back(&copy);
    }
    same(&rt, frames.pop(), Ok(7));
    Ok(())
}
