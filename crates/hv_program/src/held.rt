ghost use Rattle.std.specs.Prelude.{◌≡◌, ◌<◌, ◌++◌, [], ◌∷◌, vec_len, vec_capacity};
ghost use Rattle.hv_program.specs.Keeping.{held_without, paused_in};

use hv_base::Text;
use hv_session::Paused;

/// A statement that is held, and its session.
#[derive(Drop)]
pub struct Held {
    pub session: Text,
    pub paused: Paused,
}

/// Appends one, where there is room.
pub fn keep(held: &mut Vec<Held>, one: Held)
    requires room { vec_len held.old < vec_capacity held.old }
    ensures kept { held.new.items ≡ held.old.items ++ one ∷ [] }
{
    held.push(one).unwrap();
}

/// Takes the first statement that is held in a session out of those that are held.
pub fn let_go(held: &mut Vec<Held>, session: &Text) -> Option<Paused>
    ensures found { result ≡ paused_in session.now held.old.items }
    ensures left { held.new.items ≡ held_without session.now held.old.items }
{
    for place in 0..held.len() {
        if held[place].session == *session {
            return Some(held.remove(place).paused);
        }
    }
    None
}
