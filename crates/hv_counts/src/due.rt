use hv_base::Text;

/// How many rows a commit says that it inserted and deleted in a partition, under a write id of its table.
#[derive(Drop)]
pub struct Due {
    pub write: u64,
    pub partition: Text,
    pub inserted: u64,
    pub deleted: u64,
}
