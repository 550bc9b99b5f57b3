//! The queue of fetches.

ghost use Rattle.std.specs.Prelude.{◌≡◌, ◌==◌, ◌&&◌, bytes_eq};
ghost use Rattle.std.specs.List.{list_any};
ghost use Rattle.circular_buffer.specs.Buffer.{buffer};
ghost use Rattle.program_model.specs.Cache.{holds, without};

use circular_buffer::HeapCircularBuffer;
use spec_base::BlockSpot;

/// Whether the block is queued.
pub(crate) fn is_queued(queue: &HeapCircularBuffer<BlockSpot>, spot: &BlockSpot) -> bool
    ensures { result ≡ holds queue.now.items spot.now }
{
    scan(queue, spot)
}

// The same, as the comparison of two blocks tells it.
fn scan(queue: &HeapCircularBuffer<BlockSpot>, spot: &BlockSpot) -> bool
    ensures { result ≡ list_any (λ x. bytes_eq spot.now.name x.name && spot.now.block == x.block) queue.now.items }
{
    queue.iter().any(|queued| *spot == *queued)
}

/// Takes the block out of the queue, if it is there.
pub(crate) fn unqueue(queue: &mut HeapCircularBuffer<BlockSpot>, spot: &BlockSpot)
    ensures { queue.new ≡ buffer (without queue.old.items spot.now) queue.old.capacity }
{
    if is_queued(queue, spot) {
        pass_round(queue, spot);
    }
}

// Takes each queued block from the front, and puts it to the back unless it is this one.
fn pass_round(queue: &mut HeapCircularBuffer<BlockSpot>, spot: &BlockSpot)
    ensures { queue.new ≡ buffer (without queue.old.items spot.now) queue.old.capacity }
{
    let count = queue.len();
    for _ in 0..count {
        if let Some(queued) = queue.pop_front() {
            if *spot != queued {
                let _ = queue.try_push_back(queued);
            }
        }
    }
}
