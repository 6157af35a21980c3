ghost use Rattle.std.specs.Prelude.{◌≡◌, ◌≤◌, [], ◌∷◌, length, IfOk, IfErr, IsTrue};
ghost use Rattle.hv_base.specs.Faults.{Rose};
ghost use Rattle.hv_base.specs.Told.{Moves, StaysTold};
ghost use Rattle.hv_program.specs.Reading.{TakesUpTo};
ghost use Rattle.hv_program.specs.Refused.{is_one_of};
ghost use Rattle.hv_program.specs.Stops.{status_of_stop};

use crate::stop::Stop;
use hv_base::Source;
use std::alloc::Global;

/// How many bytes are asked for at a time.
const CHUNK: usize = 65_536;

/// Reads a source to its end, or up to so many bytes where it has more.
pub fn read_front<S: Source>(alloc: Global, source: &mut S, most: usize) -> Result<Vec<u8>, Stop>
    ensures within { IfOk result (λ bytes. length bytes.items ≤ most) }
    ensures taken { IfOk result (λ bytes.
        Moves (TakesUpTo most bytes.items) (S.left source.old) (S.left source.new)) }
    ensures tells { StaysTold (S.left source.old) (S.left source.new) }
    ensures blames { IfErr result (λ stop. stop ≡ Stop.Source
        → Rose (S.faults source.old) (S.faults source.new)) }
    ensures why { IfErr result (λ stop. IsTrue (is_one_of (3 ∷ 7 ∷ []) (status_of_stop stop))) }
{
    let mut memory = vec![in alloc; 0u8; CHUNK]?;
    let chunk = memory.as_mut_slice();
    let mut bytes = Vec::new(alloc);
    while bytes.len() < most {
        let room = most - bytes.len();
        let Ok(count) = source.read(&mut chunk[..room.min(CHUNK)]) else {
            return Err(Stop::Source);
        };
        if count == 0 {
            return Ok(bytes);
        }
        bytes.extend_from_slice(&chunk[..count])?;
    }
    Ok(bytes)
}
