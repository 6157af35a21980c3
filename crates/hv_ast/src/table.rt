use crate::change::PartitionItem;
use crate::query::Query;
use crate::types::TypeName;
use hv_base::{List, Text};

/// `name type [COMMENT string]`
#[derive(Drop)]
pub struct ColumnDefinition {
    pub name: Text,
    pub kind: TypeName,
    pub comment: Option<Text>,
}

/// `CLUSTERED BY ( columns ) INTO count BUCKETS`
#[derive(Drop)]
pub struct Clustering {
    pub columns: List<Text>,
    pub count: u64,
}

/// An item of TBLPROPERTIES: `key = value`
#[derive(Drop)]
pub struct Property {
    pub key: Text,
    pub value: Text,
}

#[derive(Drop)]
pub struct CreateTable {
    /// IF NOT EXISTS
    pub if_absent: bool,
    pub table: Text,
    pub columns: List<ColumnDefinition>,
    pub comment: Option<Text>,
    /// The columns of PARTITIONED BY, or none.
    pub partitions: List<ColumnDefinition>,
    pub clustering: Option<Clustering>,
    /// STORED AS ORC
    pub stored: bool,
    /// Empty without TBLPROPERTIES.
    pub properties: List<Property>,
}

#[derive(Drop)]
pub struct DropTable {
    pub if_exists: bool,
    pub table: Text,
    pub purge: bool,
}

/// `ALTER TABLE table ADD COLUMNS ( columns )`
#[derive(Drop)]
pub struct AddColumns {
    pub table: Text,
    pub columns: List<ColumnDefinition>,
}

/// The string behind COMPACT, in any case.
#[derive(Clone, Copy)]
pub enum CompactionKind {
    Minor,
    Major,
}

/// `ALTER TABLE table [PARTITION ( items )] COMPACT kind`
#[derive(Drop)]
pub struct Compact {
    pub table: Text,
    /// Empty without PARTITION.
    pub partition: List<PartitionItem>,
    pub kind: CompactionKind,
}

/// `CREATE MATERIALIZED VIEW view AS query`
#[derive(Drop)]
pub struct CreateView {
    pub view: Text,
    pub query: Query,
}
