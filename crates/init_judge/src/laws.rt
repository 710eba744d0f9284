// What holds of what a table knows of structures and unions, for those who judge initializers node by node.
ghost use Rattle.init_judge.specs.Laws.{TablesKnowAggregates};

/// What a table was told of structures and unions is what it knows of their members and names.
pub fn tables_know_aggregates()
    ensures { TablesKnowAggregates }
{}
