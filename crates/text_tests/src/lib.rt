//! Tests of the text's crates that no row can say: that the laws and the examples are there.
#![tactic(auto)]

#[cfg(test)]
mod tests {
    #[test]
    fn the_laws_of_reading_are_there() {
        jn_grammar::laws::whole_expressions();
        jn_grammar::laws::whole_types();
        jn_grammar::laws::whole_views();
        jn_grammar::laws::whole_programs();
        jn_grammar::laws::checked_programs();
        jn_grammar::laws::checked_sources();
        jn_parser::one_program();
    }

    #[test]
    fn each_example_holds() {
        jn_printer::examples::chains();
        jn_printer::examples::parts();
        jn_printer::examples::statements();
        jn_printer::examples::places();
        jn_printer::examples::escapes();
        jn_printer::examples::escapes_read();
        jn_printer::examples::operands();
        jn_printer::examples::places_unseen();
        jn_words::examples::lines();
    }
}
