//! Tables: CREATE, with what a table is made of, and DROP.

ghost use Rattle.hv_grammar.specs.StatementReading as reading;
ghost use Rattle.hv_parse_expr.specs.Reads.{Reads};

use hv_ast::{Clustering, ColumnDefinition, CreateTable, DropTable, Property, Stmt};
use hv_base::{List, Text};
use hv_grammar::Kind;
use hv_parse_expr::{ReadFault, Tokens, name, pushed, type_name};
use hv_parse_query::table_name;
use std::alloc::Global;

/// `ident {, ident}`
#[tactic(auto, unfolding(hv_grammar::specs::StatementReading::names, hv_grammar::specs::Readers::separated))]
fn names(alloc: Global, tokens: &mut Tokens<'_>) -> Result<List<Text>, ReadFault>
    ensures { Reads (reading.names tokens.old) result tokens.new }
{
    let mut found = pushed(Vec::new(alloc), name(alloc, tokens))?;
    for _turn in 0..tokens.left() {
        if !tokens.eat(Kind::Comma) {
            break;
        }
        found = pushed(found, name(alloc, tokens))?;
    }
    Ok(List::from_vec(found))
}

/// `[IF EXISTS]`
#[tactic(auto, unfolding(hv_grammar::specs::StatementReading::if_exists))]
fn if_exists(tokens: &mut Tokens<'_>) -> Result<bool, ReadFault>
    ensures { Reads (reading.if_exists tokens.old) result tokens.new }
{
    if !tokens.eat(Kind::If) {
        return Ok(false);
    }
    tokens.expect(Kind::Exists)?;
    Ok(true)
}

/// `[IF NOT EXISTS]`
#[tactic(auto, unfolding(hv_grammar::specs::StatementReading::if_absent))]
fn if_absent(tokens: &mut Tokens<'_>) -> Result<bool, ReadFault>
    ensures { Reads (reading.if_absent tokens.old) result tokens.new }
{
    if !tokens.eat(Kind::If) {
        return Ok(false);
    }
    tokens.expect(Kind::Not)?;
    tokens.expect(Kind::Exists)?;
    Ok(true)
}

/// `[COMMENT string]`
#[tactic(auto, unfolding(hv_grammar::specs::StatementReading::comment))]
fn comment(alloc: Global, tokens: &mut Tokens<'_>) -> Result<Option<Text>, ReadFault>
    ensures { Reads (reading.comment tokens.old) result tokens.new }
{
    if !tokens.eat(Kind::Comment) {
        return Ok(None);
    }
    Ok(Some(tokens.string(alloc)?))
}

/// `ident type [COMMENT string]`
#[tactic(auto, unfolding(hv_grammar::specs::StatementReading::column))]
fn column(alloc: Global, tokens: &mut Tokens<'_>) -> Result<ColumnDefinition, ReadFault>
    ensures { Reads (reading.column tokens.old) result tokens.new }
{
    let name = name(alloc, tokens)?;
    let kind = type_name(tokens)?;
    let comment = comment(alloc, tokens)?;
    Ok(ColumnDefinition {
        name,
        kind,
        comment,
    })
}

/// `col {, col}`
#[tactic(auto, unfolding(hv_grammar::specs::StatementReading::column_list, hv_grammar::specs::Readers::separated))]
fn column_list(alloc: Global, tokens: &mut Tokens<'_>) -> Result<List<ColumnDefinition>, ReadFault>
    ensures { Reads (reading.column_list tokens.old) result tokens.new }
{
    let mut found = pushed(Vec::new(alloc), column(alloc, tokens))?;
    for _turn in 0..tokens.left() {
        if !tokens.eat(Kind::Comma) {
            break;
        }
        found = pushed(found, column(alloc, tokens))?;
    }
    Ok(List::from_vec(found))
}

/// `( col {, col} )`
#[tactic(auto, unfolding(hv_grammar::specs::StatementReading::columns))]
fn columns(alloc: Global, tokens: &mut Tokens<'_>) -> Result<List<ColumnDefinition>, ReadFault>
    ensures { Reads (reading.columns tokens.old) result tokens.new }
{
    tokens.expect(Kind::Open)?;
    let found = column_list(alloc, tokens)?;
    tokens.expect(Kind::Close)?;
    Ok(found)
}

/// `[PARTITIONED BY ( col {, col} )]`
#[tactic(auto, unfolding(hv_grammar::specs::StatementReading::partitioned))]
fn partitioned(alloc: Global, tokens: &mut Tokens<'_>) -> Result<List<ColumnDefinition>, ReadFault>
    ensures { Reads (reading.partitioned tokens.old) result tokens.new }
{
    if !tokens.eat(Kind::Partitioned) {
        return Ok(List::empty(alloc));
    }
    tokens.expect(Kind::By)?;
    columns(alloc, tokens)
}

/// `( ident {, ident} )`
#[tactic(auto, unfolding(hv_grammar::specs::StatementReading::bracketed_names))]
pub fn bracketed_names(alloc: Global, tokens: &mut Tokens<'_>) -> Result<List<Text>, ReadFault>
    ensures { Reads (reading.bracketed_names tokens.old) result tokens.new }
{
    tokens.expect(Kind::Open)?;
    let found = names(alloc, tokens)?;
    tokens.expect(Kind::Close)?;
    Ok(found)
}

/// Behind CLUSTERED, `BY ( ident {, ident} ) INTO number BUCKETS`.
#[tactic(auto, unfolding(hv_grammar::specs::StatementReading::clustering))]
fn clustering(alloc: Global, tokens: &mut Tokens<'_>) -> Result<Clustering, ReadFault>
    ensures { Reads (reading.clustering tokens.old) result tokens.new }
{
    tokens.expect(Kind::By)?;
    let columns = bracketed_names(alloc, tokens)?;
    tokens.expect(Kind::Into)?;
    let count = tokens.number()?;
    tokens.expect(Kind::Buckets)?;
    Ok(Clustering { columns, count })
}

/// `[CLUSTERED BY ( ident {, ident} ) INTO number BUCKETS]`
#[tactic(auto, unfolding(hv_grammar::specs::StatementReading::clustered))]
fn clustered(alloc: Global, tokens: &mut Tokens<'_>) -> Result<Option<Clustering>, ReadFault>
    ensures { Reads (reading.clustered tokens.old) result tokens.new }
{
    if !tokens.eat(Kind::Clustered) {
        return Ok(None);
    }
    Ok(Some(clustering(alloc, tokens)?))
}

/// `[STORED AS ORC]`
#[tactic(auto, unfolding(hv_grammar::specs::StatementReading::stored))]
fn stored(tokens: &mut Tokens<'_>) -> Result<bool, ReadFault>
    ensures { Reads (reading.stored tokens.old) result tokens.new }
{
    if !tokens.eat(Kind::Stored) {
        return Ok(false);
    }
    tokens.expect(Kind::As)?;
    tokens.expect(Kind::Orc)?;
    Ok(true)
}

/// `string = string`
#[tactic(auto, unfolding(hv_grammar::specs::StatementReading::property))]
fn property(alloc: Global, tokens: &mut Tokens<'_>) -> Result<Property, ReadFault>
    ensures { Reads (reading.property tokens.old) result tokens.new }
{
    let key = tokens.string(alloc)?;
    tokens.expect(Kind::Equal)?;
    let value = tokens.string(alloc)?;
    Ok(Property { key, value })
}

/// `string = string {, string = string}`
#[tactic(auto, unfolding(hv_grammar::specs::StatementReading::property_list, hv_grammar::specs::Readers::separated))]
fn property_list(alloc: Global, tokens: &mut Tokens<'_>) -> Result<List<Property>, ReadFault>
    ensures { Reads (reading.property_list tokens.old) result tokens.new }
{
    let mut found = pushed(Vec::new(alloc), property(alloc, tokens))?;
    for _turn in 0..tokens.left() {
        if !tokens.eat(Kind::Comma) {
            break;
        }
        found = pushed(found, property(alloc, tokens))?;
    }
    Ok(List::from_vec(found))
}

/// `[TBLPROPERTIES ( string = string {, string = string} )]`
#[tactic(auto, unfolding(hv_grammar::specs::StatementReading::properties))]
fn properties(alloc: Global, tokens: &mut Tokens<'_>) -> Result<List<Property>, ReadFault>
    ensures { Reads (reading.properties tokens.old) result tokens.new }
{
    if !tokens.eat(Kind::TblProperties) {
        return Ok(List::empty(alloc));
    }
    tokens.expect(Kind::Open)?;
    let found = property_list(alloc, tokens)?;
    tokens.expect(Kind::Close)?;
    Ok(found)
}

/// Behind CREATE, `TABLE [IF NOT EXISTS] name ( col {, col} )` and its parts.
#[tactic(auto, unfolding(hv_grammar::specs::StatementReading::create))]
pub fn create(alloc: Global, tokens: &mut Tokens<'_>) -> Result<Stmt, ReadFault>
    ensures { Reads (reading.create tokens.old) result tokens.new }
{
    tokens.expect(Kind::Table)?;
    let if_absent = if_absent(tokens)?;
    let table = table_name(alloc, tokens)?;
    let columns = columns(alloc, tokens)?;
    let comment = comment(alloc, tokens)?;
    let partitions = partitioned(alloc, tokens)?;
    let clustering = clustered(alloc, tokens)?;
    let stored = stored(tokens)?;
    let properties = properties(alloc, tokens)?;
    Ok(Stmt::CreateTable(CreateTable {
        if_absent,
        table,
        columns,
        comment,
        partitions,
        clustering,
        stored,
        properties,
    }))
}

/// Behind DROP, `TABLE [IF EXISTS] name [PURGE]`.
#[tactic(auto, unfolding(hv_grammar::specs::StatementReading::drop_table))]
pub fn drop_table(alloc: Global, tokens: &mut Tokens<'_>) -> Result<Stmt, ReadFault>
    ensures { Reads (reading.drop_table tokens.old) result tokens.new }
{
    tokens.expect(Kind::Table)?;
    let if_exists = if_exists(tokens)?;
    let table = table_name(alloc, tokens)?;
    let purge = tokens.eat(Kind::Purge);
    Ok(Stmt::DropTable(DropTable {
        if_exists,
        table,
        purge,
    }))
}
