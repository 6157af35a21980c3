//! The committed writes of a partition, from a book: what the laws on directories ask of them.
#![tactic(auto)]

mod laws;

pub use laws::{
    content_is_of_partition, deleted_rows_stood, deletes_are_later, history_is_sound,
    ids_are_sound, list_is_of_fates, list_shows_content, list_shows_then, partitions_are_kept,
    places_are_since, readers_see_their_content, snapshots_are_of_places, writes_are_committed,
    writes_are_of_their_ids, writes_by_hand,
};
